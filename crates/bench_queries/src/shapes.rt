//! The shapes of texts.

/// What a text is mostly made of.
#[derive(Clone, Copy, PartialEq, Eq)]
pub enum Shape {
    /// Columns of one letter, over GROUP BY of all 26.
    Names,
    /// Sums with aliases.
    Sums,
    /// Numbers of one digit in one list.
    Literals,
    /// Short strings in one list, every eighth with a doubled quote.
    Strings,
    /// Comparisons with a number.
    Conditions,
    /// Names of GROUP BY: all 16,384 columns of a schema whose 64 tables are joined.
    Joins,
    /// Keys of ORDER BY, over 2,000 aliases.
    Order,
    /// The text of `Names` with a byte that begins no token at the end.
    Refused,
    /// Nothing: a short text over the schema of `Joins`, which shows what the schema costs.
    Columns,
}

/// The shape that a word names.
pub fn shape_of(word: &str) -> Option<Shape> {
    match word {
        "names" => Some(Shape::Names),
        "sums" => Some(Shape::Sums),
        "literals" => Some(Shape::Literals),
        "strings" => Some(Shape::Strings),
        "conditions" => Some(Shape::Conditions),
        "joins" => Some(Shape::Joins),
        "order" => Some(Shape::Order),
        "refused" => Some(Shape::Refused),
        "columns" => Some(Shape::Columns),
        _ => None,
    }
}
