//! Now files, the names of a table's files, and the laws.

use crate::stores::{LONG_NOW, OTHER_SLOT, SHORT_NOW, now_bytes};
use database_core::{
    Now, Slot, column_file_name, dictionary_file_name, now_file_name, now_files_are_read,
    one_opening, opened_stands, read_now,
};
use std::test::Fail;
use stream_core::Name;

#[test]
fn files_are_named_after_their_table_slot_and_column(rt: HostRuntime) -> Result<(), Fail> {
    let table = Name::of("sales").ok_or("a name")?;
    let column = Name::of("city").ok_or("a name")?;
    assert!(rt; now_file_name(&table).as_str() == "sales.now");
    let found = column_file_name(&table, Slot::A, &column);
    assert!(rt; found.as_str() == "sales.a.city.col");
    let found = dictionary_file_name(&table, Slot::B, &column);
    assert!(rt; found.as_str() == "sales.b.city.dic");
    Ok(())
}

#[test]
fn a_now_file_has_thirteen_bytes(rt: HostRuntime) {
    let now = Now {
        slot: Slot::A,
        rows: 3,
    };
    assert_eq!(rt; read_now(&now_bytes(b'a', 3)), Some(now));
    let most = Now {
        slot: Slot::B,
        rows: 268_435_456,
    };
    assert_eq!(rt; read_now(b"MNOWb\0\0\0\x10\0\0\0\0"), Some(most));
    let too_many = b"MNOWb\x01\0\0\x10\0\0\0\0".as_slice();
    for bytes in [SHORT_NOW, LONG_NOW, OTHER_SLOT, too_many, b"".as_slice()] {
        assert_eq!(rt; read_now(bytes), None);
    }
}

#[test]
fn laws_can_be_called(_rt: HostRuntime) {
    now_files_are_read();
    one_opening();
    opened_stands();
}
