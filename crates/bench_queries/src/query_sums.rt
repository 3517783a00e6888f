//! Checksums of queries: over kinds of entries, places, numbers and bytes.

use query_text::{Literal, Query, QueryCondition, QueryItem, QueryKey, SumShape, Test, Word};

/// A checksum and one more number.
pub fn mixed(sum: u64, value: u64) -> u64 {
    sum.wrapping_mul(31).wrapping_add(value)
}

/// A checksum and the number and the values of bytes.
pub fn mixed_bytes(sum: u64, bytes: &[u8]) -> u64 {
    let mut sum = mixed(sum, bytes.len() as u64);
    for byte in bytes {
        sum = mixed(sum, u64::from(*byte));
    }
    sum
}

fn mixed_word(sum: u64, word: &Word) -> u64 {
    mixed_bytes(mixed(sum, word.at), word.text.as_slice())
}

fn mixed_option(sum: u64, word: &Option<Word>) -> u64 {
    match word {
        Some(word) => mixed_word(mixed(sum, 1), word),
        None => mixed(sum, 0),
    }
}

fn mixed_words(sum: u64, words: &[Word]) -> u64 {
    let mut sum = mixed(sum, words.len() as u64);
    for word in words {
        sum = mixed_word(sum, word);
    }
    sum
}

fn number_of(shape: SumShape) -> u64 {
    match shape {
        SumShape::Plain => 1,
        SumShape::Product => 2,
        SumShape::Difference => 3,
    }
}

fn mixed_item(sum: u64, item: &QueryItem) -> u64 {
    match item {
        QueryItem::Column(word) => mixed_word(mixed(sum, 0), word),
        QueryItem::Sum {
            shape,
            first,
            second,
            alias,
        } => {
            let sum = mixed_word(mixed(sum, number_of(*shape)), first);
            mixed_option(mixed_option(sum, second), alias)
        }
    }
}

fn mixed_literal(sum: u64, literal: &Literal) -> u64 {
    match literal {
        Literal::Number(value) => mixed(sum, *value),
        Literal::Text(bytes) => mixed_bytes(sum, bytes.as_slice()),
    }
}

fn mixed_literals(sum: u64, literals: &[Literal]) -> u64 {
    let mut sum = mixed(sum, literals.len() as u64);
    for literal in literals {
        sum = mixed_literal(sum, literal);
    }
    sum
}

/// A checksum and a test.
pub fn mixed_test(sum: u64, test: &Test) -> u64 {
    match test {
        Test::Equal(value) => mixed_literal(mixed(sum, 1), value),
        Test::Below(value) => mixed_literal(mixed(sum, 2), value),
        Test::AtMost(value) => mixed_literal(mixed(sum, 3), value),
        Test::Above(value) => mixed_literal(mixed(sum, 4), value),
        Test::AtLeast(value) => mixed_literal(mixed(sum, 5), value),
        Test::Between(low, high) => mixed_literal(mixed_literal(mixed(sum, 6), low), high),
        Test::OneOf(values) => mixed_literals(mixed(sum, 7), values.as_slice()),
    }
}

fn mixed_places(sum: u64, places: &[u64]) -> u64 {
    let mut sum = sum;
    for place in places {
        sum = mixed(sum, *place);
    }
    sum
}

fn mixed_condition(sum: u64, condition: &QueryCondition) -> u64 {
    match condition {
        QueryCondition::Join { left, right } => mixed_word(mixed_word(mixed(sum, 0), left), right),
        QueryCondition::Compare {
            column,
            test,
            places,
        } => {
            let sum = mixed_word(sum, column);
            mixed_places(mixed_test(sum, test), places.as_slice())
        }
    }
}

fn mixed_key(sum: u64, key: &QueryKey) -> u64 {
    mixed(mixed_word(sum, &key.word), u64::from(key.falling))
}

/// The checksum of a query.
pub fn query_sum(query: &Query) -> u64 {
    let mut sum = query.items.as_slice().len() as u64;
    for item in query.items.as_slice() {
        sum = mixed_item(sum, item);
    }
    sum = mixed_words(sum, query.tables.as_slice());
    for condition in query.conditions.as_slice() {
        sum = mixed_condition(sum, condition);
    }
    sum = mixed_words(sum, query.groups.as_slice());
    for key in query.order.as_slice() {
        sum = mixed_key(sum, key);
    }
    sum
}
