ghost use Rattle.std.specs.Prelude.{◌≡◌, pos};
ghost use Rattle.opt_model.specs.Quantities.{step_of};
ghost use Rattle.opt_tables.specs.Facts.{IsFrom};

use opt_tables::Tables;

/// The step of a commodity's ration, in grams, or 0 where there is no such commodity.
pub fn step_of(tables: &Tables, commodity: u32) -> i64
    ensures value { result ≡ step_of tables.now commodity }
    ensures range { IsFrom (pos 0) (pos 2000) result }
{
    let _settings = tables.settings();
    match tables.commodities().get(commodity as usize) {
        Some(record) => record.step_g,
        None => 0,
    }
}
