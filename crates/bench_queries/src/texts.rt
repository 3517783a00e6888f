//! The texts of queries: an opening, as many entries as fit into 65,536 bytes, and an ending.

use crate::MAX_TEXT;
use crate::names::{digit, letter, put_name};
use crate::schema_texts::{COLUMNS, TABLES};
use crate::shapes::Shape;
use std::alloc::{AllocError, Global};

/// How many aliases the keys of ORDER BY choose from.
const ALIASES: u64 = 2000;

/// How many columns hold numbers in the schema with one table. The last one, `z`, holds texts.
const NUMBER_COLUMNS: u64 = 25;

/// An entry of a list.
#[derive(Clone, Copy)]
enum Entry {
    Column,
    Sum,
    Number,
    Text,
    Comparison,
    Key,
    /// A column of the large schema.
    Group,
    Table,
    /// A join of the dimension after this number, by a column of its own of the fact table.
    Join,
}

/// What parts two entries. A word may stand directly behind a number.
fn separator_of(entry: Entry) -> &'static [u8] {
    match entry {
        Entry::Comparison => b"and ",
        Entry::Join => b" and ",
        _ => b",",
    }
}

fn put_sum(text: &mut Vec<u8>, number: u64) -> Result<(), AllocError> {
    text.extend_from_slice(b"sum(")?;
    text.push(letter(number % NUMBER_COLUMNS))?;
    text.extend_from_slice(b")as ")?;
    put_name(text, number)
}

fn put_string(text: &mut Vec<u8>, number: u64) -> Result<(), AllocError> {
    if number % 8 == 7 {
        text.extend_from_slice(b"''''")?;
    } else {
        text.extend_from_slice(&[b'\'', letter(number), b'\''])?;
    }
    Ok(())
}

fn sign_of(number: u64) -> &'static [u8] {
    match number % 5 {
        0 => b"<",
        1 => b"<=",
        2 => b"=",
        3 => b">=",
        _ => b">",
    }
}

fn put_comparison(text: &mut Vec<u8>, number: u64) -> Result<(), AllocError> {
    text.push(letter(number % NUMBER_COLUMNS))?;
    text.extend_from_slice(sign_of(number))?;
    text.push(digit(number))?;
    Ok(())
}

/// Adds a key. Keys leap over the aliases, and every second one falls.
fn put_key(text: &mut Vec<u8>, number: u64) -> Result<(), AllocError> {
    put_name(text, number.wrapping_mul(7) % ALIASES)?;
    if number % 2 == 1 {
        text.extend_from_slice(b" desc")?;
    }
    Ok(())
}

fn put_join(text: &mut Vec<u8>, number: u64) -> Result<(), AllocError> {
    put_name(text, number.wrapping_mul(TABLES))?;
    text.push(b'=')?;
    put_name(text, number.wrapping_add(1))
}

fn put_entry(text: &mut Vec<u8>, entry: Entry, number: u64) -> Result<(), AllocError> {
    match entry {
        Entry::Column => text.push(letter(number))?,
        Entry::Sum => put_sum(text, number)?,
        Entry::Number => text.push(digit(number))?,
        Entry::Text => put_string(text, number)?,
        Entry::Comparison => put_comparison(text, number)?,
        Entry::Key => put_key(text, number)?,
        Entry::Group | Entry::Table => put_name(text, number)?,
        Entry::Join => put_join(text, number)?,
    }
    Ok(())
}

/// Adds entries, at most so many, and as many as leave room for `ending` bytes.
fn put_entries(
    text: &mut Vec<u8>,
    entry: Entry,
    most: u64,
    ending: usize,
) -> Result<(), AllocError> {
    let end = MAX_TEXT.saturating_sub(ending);
    for number in 0..most {
        let fitting = text.len();
        if number > 0 {
            text.extend_from_slice(separator_of(entry))?;
        }
        put_entry(text, entry, number)?;
        if text.len() > end {
            text.truncate(fitting);
            return Ok(());
        }
    }
    Ok(())
}

/// What stands before the entries.
fn opening_of(alloc: Global, shape: Shape) -> Result<Vec<u8>, AllocError> {
    let mut text = Vec::from_slice(alloc, b"select ")?;
    match shape {
        Shape::Names | Shape::Sums | Shape::Refused => {}
        Shape::Literals => text.extend_from_slice(b"sum(a)from a where a in(")?,
        Shape::Strings => text.extend_from_slice(b"sum(a)from a where z in(")?,
        Shape::Conditions => text.extend_from_slice(b"sum(a)from a where ")?,
        Shape::Joins => {
            text.extend_from_slice(b"a from ")?;
            put_entries(&mut text, Entry::Table, TABLES, 0)?;
            text.extend_from_slice(b" where ")?;
            put_entries(&mut text, Entry::Join, TABLES - 1, 0)?;
            text.extend_from_slice(b" group by ")?;
        }
        Shape::Order => {
            put_entries(&mut text, Entry::Sum, ALIASES, 0)?;
            text.extend_from_slice(b" from a order by ")?;
        }
        Shape::Columns => text.extend_from_slice(b"sum(a)from a")?,
    }
    Ok(text)
}

/// The entries that the text is filled with, and how many there are at most.
fn entries_of(shape: Shape) -> (Entry, u64) {
    match shape {
        Shape::Names | Shape::Refused => (Entry::Column, u64::MAX),
        Shape::Sums => (Entry::Sum, u64::MAX),
        Shape::Literals => (Entry::Number, u64::MAX),
        Shape::Strings => (Entry::Text, u64::MAX),
        Shape::Conditions => (Entry::Comparison, u64::MAX),
        Shape::Joins => (Entry::Group, TABLES * COLUMNS),
        Shape::Order => (Entry::Key, u64::MAX),
        Shape::Columns => (Entry::Key, 0),
    }
}

/// What stands behind the entries.
fn ending_of(shape: Shape) -> &'static [u8] {
    match shape {
        Shape::Names => b" from a group by a,b,c,d,e,f,g,h,i,j,k,l,m,n,o,p,q,r,s,t,u,v,w,x,y,z",
        Shape::Refused => b" from a group by a,b,c,d,e,f,g,h,i,j,k,l,m,n,o,p,q,r,s,t,u,v,w,x,y,z#",
        Shape::Sums => b" from a",
        Shape::Literals | Shape::Strings => b")",
        Shape::Conditions | Shape::Joins | Shape::Order | Shape::Columns => b"",
    }
}

/// The text of a query of a shape.
pub fn query_text(alloc: Global, shape: Shape) -> Result<Vec<u8>, AllocError> {
    let mut text = opening_of(alloc, shape)?;
    let (entry, most) = entries_of(shape);
    let ending = ending_of(shape);
    put_entries(&mut text, entry, most, ending.len())?;
    text.extend_from_slice(ending)?;
    Ok(text)
}
