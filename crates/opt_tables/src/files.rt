ghost use Rattle.std.specs.Prelude.{◌≡◌, ◌^◌, ◌<◌, OnOk, length, option_copied};
ghost use Rattle.opt_base.specs.declared.refusal.File.{File};
ghost use Rattle.opt_base.specs.Answers.{each};
ghost use Rattle.opt_tables.specs.Files.{no_files, file_of, with_file, bytes_of, is_required, limit_of, checked, with_checked, all_checked, IsModelFile};

use opt_base::{Blob, File, Kind, Refusal};
use std::marker::Model;

/// The most bytes that settings.toml may have.
pub const SETTINGS_LIMIT: u64 = 65_536;

/// The most bytes that a table may have.
pub const TABLE_LIMIT: u64 = 16_777_216;

/// The model files, in the order in which they are got and refused.
pub const MODEL_FILES: [File; 12] = [
    File::Settings,
    File::Commodities,
    File::Groups,
    File::Nutrients,
    File::Contents,
    File::Places,
    File::Offers,
    File::Arcs,
    File::Persons,
    File::Stock,
    File::Baskets,
    File::Needs,
];

/// The bytes of the twelve model files, each of which may be missing.
#[derive(Debug, Drop)]
pub struct Files {
    settings: Option<Blob>,
    commodities: Option<Blob>,
    groups: Option<Blob>,
    nutrients: Option<Blob>,
    contents: Option<Blob>,
    places: Option<Blob>,
    offers: Option<Blob>,
    arcs: Option<Blob>,
    persons: Option<Blob>,
    stock: Option<Blob>,
    baskets: Option<Blob>,
    needs: Option<Blob>,
}

impl Model for Files {
    ghost use Rattle.opt_tables.specs.Files.{ModelFiles};

    ghost Value = { ModelFiles };

    ghost view = { λ files. record {
      settings = files.settings;
      commodities = files.commodities;
      groups = files.groups;
      nutrients = files.nutrients;
      contents = files.contents;
      places = files.places;
      offers = files.offers;
      arcs = files.arcs;
      persons = files.persons;
      stock = files.stock;
      baskets = files.baskets;
      needs = files.needs;
    } };
}

impl Files {
    /// No file.
    pub fn new() -> Files
        ensures { result ≡ no_files }
    {
        Files {
            settings: None,
            commodities: None,
            groups: None,
            nutrients: None,
            contents: None,
            places: None,
            offers: None,
            arcs: None,
            persons: None,
            stock: None,
            baskets: None,
            needs: None,
        }
    }

    /// What a model file holds.
    pub fn get(&self, file: File) -> Option<&[u8]>
        requires { IsModelFile file }
        ensures { option_copied result ≡ file_of self.now file }
    {
        self.held(file)
    }

    /// Replaces what a model file holds.
    pub fn set(&mut self, file: File, bytes: Option<Blob>)
        requires { IsModelFile file }
        ensures { self.new ≡ with_file self.old file bytes }
    {
        self.hold(file, bytes)
    }

    /// What a file holds; nothing where it is no model file.
    pub(crate) fn held(&self, file: File) -> Option<&[u8]>
        ensures { option_copied result ≡ file_of self.now file }
    {
        let held = match file {
            File::Settings => &self.settings,
            File::Commodities => &self.commodities,
            File::Groups => &self.groups,
            File::Nutrients => &self.nutrients,
            File::Contents => &self.contents,
            File::Places => &self.places,
            File::Offers => &self.offers,
            File::Arcs => &self.arcs,
            File::Persons => &self.persons,
            File::Stock => &self.stock,
            File::Baskets => &self.baskets,
            File::Needs => &self.needs,
            _ => return None,
        };
        match held {
            Some(blob) => Some(blob.as_slice()),
            None => None,
        }
    }

    /// Replaces what a file holds, where it is a model file.
    pub(crate) fn hold(&mut self, file: File, bytes: Option<Blob>)
        ensures { self.new ≡ with_file self.old file bytes }
    {
        match file {
            File::Settings => self.settings = bytes,
            File::Commodities => self.commodities = bytes,
            File::Groups => self.groups = bytes,
            File::Nutrients => self.nutrients = bytes,
            File::Contents => self.contents = bytes,
            File::Places => self.places = bytes,
            File::Offers => self.offers = bytes,
            File::Arcs => self.arcs = bytes,
            File::Persons => self.persons = bytes,
            File::Stock => self.stock = bytes,
            File::Baskets => self.baskets = bytes,
            File::Needs => self.needs = bytes,
            _ => {}
        }
    }

    /// The bytes of a file; none where it is missing.
    pub(crate) fn bytes(&self, file: File) -> &[u8]
        ensures { result.now ≡ bytes_of self.now file }
    {
        match self.held(file) {
            Some(bytes) => bytes,
            None => &[],
        }
    }

    /// The first refusal of the files as wholes: one that is missing and must be there, or one that is too big.
    pub(crate) fn check(&self) -> Result<(), Refusal>
        ensures exact { result ≡ all_checked self.now }
        ensures small { OnOk result ((file : File) → length (bytes_of self.now file) < 2 ^ 32) }
    {
        self.check_each(&MODEL_FILES)
    }

    /// The first refusal of some of the files as wholes.
    fn check_each(&self, order: &[File]) -> Result<(), Refusal>
        ensures { result ≡ each (with_checked self.now) 0 tt order.now }
    {
        for file in order {
            check_file(*file, self.held(*file))?;
        }
        Ok(())
    }
}

/// Whether a model file must be there.
pub(crate) fn is_required(file: File) -> bool
    ensures { result ≡ is_required file }
{
    matches!(
        file,
        File::Settings | File::Commodities | File::Nutrients | File::Contents
    )
}

/// How many bytes a model file may have.
pub(crate) fn limit(file: File) -> u64
    ensures { result ≡ limit_of file }
{
    match file {
        File::Settings => SETTINGS_LIMIT,
        _ => TABLE_LIMIT,
    }
}

/// Refuses a file that must be there and is not, or has too many bytes.
fn check_file(file: File, held: Option<&[u8]>) -> Result<(), Refusal>
    ensures { result ≡ checked file (option_copied held.entry) }
{
    match held {
        Some(bytes) if bytes.len() as u64 > limit(file) => {
            Err(Refusal::of_file(file, Kind::FileTooBig))
        }
        None if is_required(file) => Err(Refusal::of_file(file, Kind::MissingFile)),
        _ => Ok(()),
    }
}
