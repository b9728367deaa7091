//! What is printed of the records that match.

use crate::adding::add;
use crate::columns::{Column, Kind};
use crate::layout::RecordLayout;
use crate::ranges::{range_over, ranges_of};
use crate::refused::refused;
use clap::ArgMatches;
use command_files::arguments::required;
use command_files::{Failure, Shown};
use record_questions::{ByteRange, Field, Tally};
use std::alloc::{AllocError, Global};

/// The option that names the columns.
pub(crate) const SELECT: &str = "select";

/// The option that asks for the number of the records.
pub(crate) const COUNT: &str = "count";

/// The option that asks for the sum of a column.
pub(crate) const SUM: &str = "sum";

/// The option that asks for the least number of a column.
pub(crate) const LEAST: &str = "least";

/// The option that asks for the greatest number of a column.
pub(crate) const GREATEST: &str = "greatest";

/// A tally, and the name of its column.
#[derive(Drop)]
pub(crate) struct NamedTally {
    /// The name.
    pub(crate) name: String,
    /// What is tallied.
    pub(crate) tally: Tally,
}

/// What is printed.
#[derive(Drop)]
pub(crate) enum Wanted {
    /// These columns of each record that matches.
    Rows(Vec<Column>),
    /// These tallies of all records that match.
    Tallies(Vec<NamedTally>),
}

impl Wanted {
    /// The bytes of a record that are emitted: those of the columns.
    pub(crate) fn ranges(&self, alloc: Global) -> Result<Vec<ByteRange>, AllocError> {
        match self {
            Wanted::Rows(columns) => ranges_of(alloc, columns.as_slice()),
            Wanted::Tallies(_) => Ok(Vec::new(alloc)),
        }
    }

    /// All bytes from the first column to the end of the last.
    pub(crate) fn range(&self, alloc: Global) -> Result<Vec<ByteRange>, AllocError> {
        let mut ranges = Vec::new(alloc);
        if let Wanted::Rows(columns) = self {
            if let Some(range) = range_over(columns.as_slice()) {
                ranges.extend_from_slice(&[range])?;
            }
        }
        Ok(ranges)
    }

    /// What is tallied: first the number of the records, by which it is known whether there is a least and a greatest; then the other
    /// tallies that are wanted, in order.
    pub(crate) fn tallies(&self, alloc: Global) -> Result<Vec<Tally>, AllocError> {
        let mut tallies = Vec::new(alloc);
        if let Wanted::Tallies(wanted) = self {
            tallies.extend_from_slice(&[Tally::Count])?;
            for named in wanted {
                if named.tally != Tally::Count {
                    tallies.extend_from_slice(&[named.tally])?;
                }
            }
        }
        Ok(tallies)
    }
}

/// What the words ask for: tallies, or columns, which are all of the layout where none is named.
///
/// # Errors
///
/// A name that the layout lacks, a column that isn't tallied, or both tallies and columns.
pub(crate) fn wanted_of<'a>(
    alloc: Global,
    matches: &ArgMatches<'a>,
    layout: &RecordLayout,
) -> Result<Wanted, Failure<'a>> {
    let tallies = tallies_asked(alloc, matches, layout)?;
    let select = required(matches, SELECT);
    if tallies.is_empty() {
        return Ok(Wanted::Rows(columns_asked(alloc, select, layout)?));
    }
    if !select.is_empty() {
        let told = format!(in alloc;
            "--select asks for a row of each record and --count, --sum, --least and --greatest for one of all; ask for either"
        );
        return Err(refused(told));
    }
    Ok(Wanted::Tallies(tallies))
}

/// The columns with these names, between commas.
fn columns_asked<'a>(
    alloc: Global,
    names: &str,
    layout: &RecordLayout,
) -> Result<Vec<Column>, Failure<'a>> {
    if names.is_empty() {
        return all_columns(alloc, layout);
    }
    let mut columns = Vec::new(alloc);
    for name in names.split(',') {
        let column = named_column(alloc, SELECT, name.trim(), layout)?;
        add(&mut columns, column.copied(alloc)?)?;
    }
    Ok(columns)
}

/// The columns of a layout.
fn all_columns<'a>(alloc: Global, layout: &RecordLayout) -> Result<Vec<Column>, Failure<'a>> {
    if layout.columns.is_empty() {
        let told = format!(in alloc; "the layout has no field; add a line such as `region u32 @8`");
        return Err(refused(told));
    }
    let mut columns = Vec::new(alloc);
    for column in &layout.columns {
        add(&mut columns, column.copied(alloc)?)?;
    }
    Ok(columns)
}

/// The column with the name after an option.
pub(crate) fn named_column<'a, 'l>(
    alloc: Global,
    option: &str,
    name: &str,
    layout: &'l RecordLayout,
) -> Result<&'l Column, Failure<'a>> {
    match layout.column(name) {
        Some(column) => Ok(column),
        None => Err(refused(unknown(alloc, option, name, layout))),
    }
}

/// The sentence of a name that the layout lacks: it lists those that it has.
fn unknown(
    alloc: Global,
    option: &str,
    name: &str,
    layout: &RecordLayout,
) -> Result<String, AllocError> {
    let mut told = format!(in alloc;
        "--{option}: the layout has no field `{}`; it has ",
        Shown(name)
    )?;
    for (number, column) in layout.columns.iter().enumerate() {
        if number > 0 {
            told.push_str(", ")?;
        }
        told.push_str(column.name.as_str())?;
    }
    Ok(told)
}

/// The tallies that are asked for.
fn tallies_asked<'a>(
    alloc: Global,
    matches: &ArgMatches<'a>,
    layout: &RecordLayout,
) -> Result<Vec<NamedTally>, Failure<'a>> {
    let mut tallies = Vec::new(alloc);
    if required(matches, COUNT) == "true" {
        let name = String::from_str(alloc, "count")?;
        let tally = Tally::Count;
        add(&mut tallies, NamedTally { name, tally })?;
    }
    if let Some(field) = field_tallied(alloc, matches, SUM, layout)? {
        add(
            &mut tallies,
            named_tally(alloc, matches, SUM, Tally::Sum(field))?,
        )?;
    }
    if let Some(field) = field_tallied(alloc, matches, LEAST, layout)? {
        add(
            &mut tallies,
            named_tally(alloc, matches, LEAST, Tally::Least(field))?,
        )?;
    }
    if let Some(field) = field_tallied(alloc, matches, GREATEST, layout)? {
        add(
            &mut tallies,
            named_tally(alloc, matches, GREATEST, Tally::Greatest(field))?,
        )?;
    }
    Ok(tallies)
}

/// A tally with the name of its column: the option, and the field in parentheses.
fn named_tally(
    alloc: Global,
    matches: &ArgMatches<'_>,
    option: &str,
    tally: Tally,
) -> Result<NamedTally, AllocError> {
    let field = required(matches, option);
    Ok(NamedTally {
        name: format!(in alloc; "{option}({field})")?,
        tally,
    })
}

/// The field that an option tallies, where it is there.
fn field_tallied<'a>(
    alloc: Global,
    matches: &ArgMatches<'a>,
    option: &str,
    layout: &RecordLayout,
) -> Result<Option<Field>, Failure<'a>> {
    let name = required(matches, option);
    if name.is_empty() {
        return Ok(None);
    }
    let column = named_column(alloc, option, name, layout)?;
    match column.kind {
        Kind::Number(field) => Ok(Some(field)),
        Kind::Text { .. } | Kind::Bytes { .. } => {
            let told = format!(in alloc;
                "--{option} {name}: only numbers are tallied, of the types u8 to u64 and i8 to i64"
            );
            Err(refused(told))
        }
    }
}
