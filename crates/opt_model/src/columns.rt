ghost use Rattle.std.specs.Prelude.{◌≡◌, [], slice_index_or};
ghost use Rattle.opt_model.specs.Columns.{columns_of, widest_format, names_of, column_name};

use crate::format::{has_baskets, has_lots};
use crate::limits::LAST_FORMAT;
use opt_base::File;

/// The columns that a file has under a format, parted by commas, in the order of their numbers; of the settings their
/// keys, and of the model as a whole what a refusal of it counts.
pub fn columns_of(file: File, format: u32) -> &'static str
    ensures { result.now ≡ columns_of file format }
{
    match file {
        File::Settings => "format,months,days,goal,gap,nodes,budget",
        File::Commodities => "commodity,group,min_g,max_g,step_g",
        File::Groups => "group,min_g,max_g",
        File::Nutrients => {
            if has_baskets(format) {
                "nutrient"
            } else {
                "nutrient,required,max_short,weight"
            }
        }
        File::Contents => "commodity,nutrient,per_100g",
        File::Places => "place,kind,storage,throughput,handling,storage_cost",
        File::Offers => {
            if has_lots(format) {
                "offer,place,commodity,price,max_kg,first,last,fee,least"
            } else {
                "offer,place,commodity,price,max_kg,first,last"
            }
        }
        File::Arcs => "arc,from,to,cost,capacity,lead",
        File::Persons => {
            if has_baskets(format) {
                "place,month,persons,basket"
            } else {
                "place,month,persons"
            }
        }
        File::Stock => "place,commodity,month,kg",
        File::Baskets => "basket",
        File::Needs => "basket,nutrient,required,max_short,weight",
        File::Model => "quantities,rows,terms",
        File::Plan | File::Executed => "quantity,name,commodity,month,amount",
        File::Certificate => "",
        File::Edits => "file,record,column,value",
    }
}

/// The format under which a file has the most columns.
fn widest_format(file: File) -> u32
    ensures { result ≡ widest_format file }
{
    match file {
        File::Nutrients => 1,
        _ => LAST_FORMAT,
    }
}

/// The name at an index between commas, or an empty one where there are no more.
fn name_between(columns: &'static str, index: usize) -> &'static str
    ensures { result.now ≡ slice_index_or (names_of columns.now) index [] }
{
    match columns.split(',').nth(index) {
        Some(name) => name,
        None => "",
    }
}

/// The name of a column or key, numbered from 1; empty where there is none.
pub fn column_name(file: File, column: u8) -> &'static str
    ensures { result.now ≡ column_name file column }
{
    let columns = columns_of(file, widest_format(file));
    name_between(columns, (column as usize).saturating_sub(1))
}
