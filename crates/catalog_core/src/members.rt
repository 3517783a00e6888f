//! What the keys of a table of TOML hold.

ghost use Rattle.std.specs.Prelude.{◌≡◌, ◌≤◌, IfSome, length, false, option_map, map, codes, string_bytes};
ghost use Rattle.std.specs.List.{list_any, list_all};
ghost use Rattle.std.specs.Map.{keys_of};
ghost use Rattle.std.specs.Str.{bytes_eq};
ghost use Rattle.toml.specs.Data.{get_member, as_bool};
ghost use Rattle.toml.specs.View.{view, table_view};
ghost use Rattle.catalog_core.specs.Schemas.{has_only, required, optional, name_in, one_of, role_words, kind_words, separator_words, format_words, items_in, key_in, repeats_in};
ghost use Rattle.block_core.specs.declared.formats.FormatChoice.TheVariants as choice;
ghost use Rattle.block_core.specs.declared.formats.Format.TheVariants as format;

use crate::schemas::{Kind, Role};
use block_core::{Format, FormatChoice};
use stream_core::{Name, is_name};
use toml::{Table, Value};

fn is_among(word: &str, words: &[&str]) -> bool
    ensures { result ≡ list_any (λ known. bytes_eq known word.now) (map (λ known. known.now) words.now) }
{
    words.contains(&word)
}

fn are_among(table: &Table, known: &[&str]) -> bool
    ensures { result ≡ list_all (λ key. list_any (λ word. bytes_eq word (string_bytes key)) (map (λ word. word.now) known.now)) (keys_of table.now.entries) }
{
    table.keys().all(|key| is_among(key.as_str(), known))
}

/// Whether the table has no key but these.
pub fn has_only(table: &Table, known: &[&str]) -> bool
    ensures { result ≡ has_only (map (λ word. word.now) known.now) (table_view table.now) }
{
    are_among(table, known)
}

/// What the key holds.
fn held<'a>(table: &'a Table, key: &str) -> Option<&'a Value>
    ensures { option_map (λ value. view value.now) result ≡ get_member key.now (table_view table.entry.now) }
{
    table.get(key)
}

fn name_in(value: &Value) -> Option<Name>
    ensures { result ≡ name_in (view value.now) }
{
    let text = value.as_str()?;
    if is_name(text) { Name::of(text) } else { None }
}

pub fn name_of(table: &Table) -> Option<Name>
    ensures { result ≡ required name_in (get_member (codes "name") (table_view table.now)) }
{
    name_in(held(table, "name")?)
}

fn role_in(value: &Value) -> Option<Role>
    ensures { result ≡ one_of role_words (view value.now) }
{
    match value.as_str()? {
        "fact" => Some(Role::Fact),
        "dimension" => Some(Role::Dimension),
        _ => None,
    }
}

pub fn role_of(table: &Table) -> Option<Role>
    ensures { result ≡ required (one_of role_words) (get_member (codes "role") (table_view table.now)) }
{
    role_in(held(table, "role")?)
}

fn kind_in(value: &Value) -> Option<Kind>
    ensures { result ≡ one_of kind_words (view value.now) }
{
    match value.as_str()? {
        "number" => Some(Kind::Number),
        "text" => Some(Kind::Text),
        _ => None,
    }
}

pub fn kind_of(table: &Table) -> Option<Kind>
    ensures { result ≡ required (one_of kind_words) (get_member (codes "kind") (table_view table.now)) }
{
    kind_in(held(table, "kind")?)
}

fn separator_in(value: &Value) -> Option<u8>
    ensures { result ≡ one_of separator_words (view value.now) }
{
    match value.as_str()? {
        "," => Some(b','),
        "|" => Some(b'|'),
        ";" => Some(b';'),
        "\t" => Some(b'\t'),
        _ => None,
    }
}

pub fn separator_of(table: &Table) -> Option<u8>
    ensures { result ≡ optional 44 (one_of separator_words) (get_member (codes "separator") (table_view table.now)) }
{
    match held(table, "separator") {
        None => Some(b','),
        Some(value) => separator_in(value),
    }
}

fn format_in(value: &Value) -> Option<FormatChoice>
    ensures { result ≡ one_of format_words (view value.now) }
{
    match value.as_str()? {
        "plain" => Some(FormatChoice::Fixed(Format::Plain)),
        "static" => Some(FormatChoice::Fixed(Format::Static)),
        "dynamic" => Some(FormatChoice::Fixed(Format::Dynamic)),
        "runs" => Some(FormatChoice::Fixed(Format::Runs)),
        "delta1+dynamic" => Some(FormatChoice::Fixed(Format::Delta1Dynamic)),
        "delta16+dynamic" => Some(FormatChoice::Fixed(Format::Delta16Dynamic)),
        "reference+dynamic" => Some(FormatChoice::Fixed(Format::ReferenceDynamic)),
        "delta1+runs" => Some(FormatChoice::Fixed(Format::Delta1Runs)),
        "auto" => Some(FormatChoice::Auto),
        _ => None,
    }
}

pub fn format_of(table: &Table) -> Option<FormatChoice>
    ensures { result ≡ optional (choice.Fixed format.Plain) (one_of format_words) (get_member (codes "format") (table_view table.now)) }
{
    match held(table, "format") {
        None => Some(FormatChoice::Fixed(Format::Plain)),
        Some(value) => format_in(value),
    }
}

/// A yes or no under an optional key, no by default.
pub fn flag_of(table: &Table, key: &str) -> Option<bool>
    ensures { result ≡ optional false as_bool (get_member key.now (table_view table.now)) }
{
    match held(table, key) {
        None => Some(false),
        Some(value) => value.as_bool(),
    }
}

/// The name under `key`, which a dimension has and a fact table has not.
pub fn key_of<'a>(role: Role, table: &'a Table) -> Option<Option<&'a str>>
    ensures { option_map (option_map (λ text. text.now)) result ≡ key_in role (get_member (codes "key") (table_view table.entry.now)) }
{
    match (role, held(table, "key")) {
        (Role::Fact, None) => Some(None),
        (Role::Fact, Some(_)) => None,
        (Role::Dimension, None) => None,
        (Role::Dimension, Some(value)) => Some(Some(value.as_str()?)),
    }
}

pub fn repeats_of(role: Role, table: &Table) -> Option<bool>
    ensures { result ≡ repeats_in role (get_member (codes "repeats") (table_view table.now)) }
{
    match (role, held(table, "repeats")) {
        (Role::Fact, None) => Some(false),
        (Role::Fact, Some(_)) => None,
        (Role::Dimension, None) => Some(false),
        (Role::Dimension, Some(value)) => value.as_bool(),
    }
}

/// The items of the array under the key, from 1 to `most` of them.
pub fn items_of<'a>(table: &'a Table, key: &str, most: usize) -> Option<&'a [Value]>
    ensures items { option_map (λ items. map view items.now) result ≡ required (items_in most) (get_member key.now (table_view table.entry.now)) }
    ensures few { IfSome result (λ items. length items.now ≤ most) }
{
    let items = held(table, key)?.as_array()?.as_slice();
    if 1 <= items.len() && items.len() <= most {
        Some(items)
    } else {
        None
    }
}
