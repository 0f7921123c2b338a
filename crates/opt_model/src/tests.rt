use crate::{Name, column_name, columns_of, file_name};
use opt_base::File;
use std::test::Fail;

#[test]
fn keeps_a_name(rt: HostRuntime) -> Result<(), Fail> {
    let name = Name::new(rt.alloc(), "rice, white")?;
    assert!(rt; name.as_str() == "rice, white");
    Ok(())
}

#[test]
fn names_files(rt: HostRuntime) {
    assert!(rt; file_name(File::Settings) == "settings.toml");
    assert!(rt; file_name(File::Stock) == "stock.csv");
    assert!(rt; file_name(File::Model) == "model");
}

#[test]
fn names_columns(rt: HostRuntime) {
    assert!(rt; columns_of(File::Settings, 1) == "format,months,days,goal,gap,nodes,budget");
    assert!(rt; columns_of(File::Nutrients, 1) == "nutrient,required,max_short,weight");
    for format in [2, 3] {
        assert!(rt; columns_of(File::Nutrients, format) == "nutrient");
        assert!(rt; columns_of(File::Persons, format) == "place,month,persons,basket");
        assert!(rt; columns_of(File::Needs, format) == "basket,nutrient,required,max_short,weight");
    }
    assert!(rt; columns_of(File::Persons, 1) == "place,month,persons");
    assert!(rt; columns_of(File::Offers, 2) == "offer,place,commodity,price,max_kg,first,last");
    assert!(rt;
        columns_of(File::Offers, 3) == "offer,place,commodity,price,max_kg,first,last,fee,least"
    );
    // By number, also where a format has fewer columns than another; past the last there is no name.
    assert!(rt; column_name(File::Settings, 1) == "format");
    assert!(rt; column_name(File::Settings, 7) == "budget");
    assert!(rt; column_name(File::Nutrients, 4) == "weight");
    assert!(rt; column_name(File::Persons, 4) == "basket");
    assert!(rt; column_name(File::Offers, 9) == "least");
    assert!(rt; column_name(File::Model, 3) == "terms");
    assert!(rt; column_name(File::Offers, 10) == "");
    assert!(rt; column_name(File::Certificate, 1) == "");
}
