ghost use Rattle.std.specs.Prelude.{◌≡◌};
ghost use Rattle.opt_model.specs.Texts.{file_name};

use opt_base::File;

/// What a file of a folder is called; `model` for the model as a whole.
pub fn file_name(file: File) -> &'static str
    ensures { result.now ≡ file_name file }
{
    match file {
        File::Settings => "settings.toml",
        File::Commodities => "commodities.csv",
        File::Groups => "groups.csv",
        File::Nutrients => "nutrients.csv",
        File::Contents => "contents.csv",
        File::Places => "places.csv",
        File::Offers => "offers.csv",
        File::Arcs => "arcs.csv",
        File::Persons => "persons.csv",
        File::Stock => "stock.csv",
        File::Baskets => "baskets.csv",
        File::Needs => "needs.csv",
        File::Model => "model",
        File::Plan => "plan.csv",
        File::Certificate => "certificate.txt",
        File::Edits => "edits",
        File::Executed => "executed.csv",
    }
}
