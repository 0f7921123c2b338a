mod counts;
mod formats;
mod network;

use crate::{Layout, Quantity};
use opt_base::{Blob, File, ModelFault};
use opt_tables::{Files, Tables, read_model};
use std::alloc::Global;

/// What the files of a folder hold; a table without a byte has no records.
#[derive(Clone, Copy)]
struct Folder<'a> {
    settings: &'a [u8],
    commodities: &'a [u8],
    nutrients: &'a [u8],
    contents: &'a [u8],
    places: &'a [u8],
    offers: &'a [u8],
    arcs: &'a [u8],
    persons: &'a [u8],
    baskets: &'a [u8],
    needs: &'a [u8],
}

/// A quantity with its range.
#[derive(Clone, Copy)]
struct Line(Quantity, i64, i64);

/// The files of the diet.
fn diet_of(alloc: Global, folder: &Folder<'_>) -> Result<Files, ModelFault> {
    let mut files = Files::new();
    files.set(
        File::Settings,
        Some(Blob::from_slice(alloc, folder.settings)?),
    );
    files.set(
        File::Commodities,
        Some(Blob::from_slice(alloc, folder.commodities)?),
    );
    files.set(
        File::Nutrients,
        Some(Blob::from_slice(alloc, folder.nutrients)?),
    );
    files.set(
        File::Contents,
        Some(Blob::from_slice(alloc, folder.contents)?),
    );
    Ok(files)
}

/// Adds the files of the network.
fn add_network(alloc: Global, files: &mut Files, folder: &Folder<'_>) -> Result<(), ModelFault> {
    files.set(File::Places, Some(Blob::from_slice(alloc, folder.places)?));
    files.set(File::Offers, Some(Blob::from_slice(alloc, folder.offers)?));
    files.set(File::Arcs, Some(Blob::from_slice(alloc, folder.arcs)?));
    files.set(
        File::Persons,
        Some(Blob::from_slice(alloc, folder.persons)?),
    );
    Ok(())
}

/// The tables of a folder.
fn tables_of(alloc: Global, folder: &Folder<'_>) -> Result<Tables, ModelFault> {
    let mut files = diet_of(alloc, folder)?;
    add_network(alloc, &mut files, folder)?;
    files.set(
        File::Baskets,
        Some(Blob::from_slice(alloc, folder.baskets)?),
    );
    files.set(File::Needs, Some(Blob::from_slice(alloc, folder.needs)?));
    read_model(alloc, &files)
}

/// The layout of a folder's model.
fn layout_of(alloc: Global, folder: &Folder<'_>) -> Result<Layout, ModelFault> {
    let tables = tables_of(alloc, folder)?;
    Layout::new(alloc, &tables)
}

/// Whether the quantity of a number is this one, with its range, and has that number.
fn has_line(layout: &Layout, number: u32, line: &Line) -> bool {
    number < layout.len()
        && layout.quantity(number) == line.0
        && layout.index(&line.0) == Some(number)
        && layout.range(number) == (line.1, line.2)
}

/// Whether these are the quantities, with their ranges.
fn has_lines(layout: &Layout, lines: &[Line]) -> bool {
    if layout.len() as usize != lines.len() {
        return false;
    }
    for number in 0..lines.len() {
        if !has_line(layout, number as u32, &lines[number]) {
            return false;
        }
    }
    true
}
