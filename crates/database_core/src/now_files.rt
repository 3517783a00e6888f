//! The now file of a table: `MNOW`, the letter of a slot, and a row count of 8 bytes, the little end first.

ghost use Rattle.std.specs.Prelude.{◌≡◌, true, false, drop, length, option_map, MatchOption};
ghost use Rattle.std.specs.Int.{from_le_bytes, w64};
ghost use Rattle.database_core.specs.NowFiles.{is_slot, now_file, now_in};
ghost use Rattle.database_core.specs.NowViews.{letter_of, now_view};

use block_core::MAX_ROWS;

/// Which of a table's two sets of files holds its rows.
#[derive(Clone, Copy, Debug, PartialEq, Eq)]
pub enum Slot {
    A,
    B,
}

impl Slot {
    /// The letter in file names and in now files.
    pub fn letter(self) -> u8
        ensures { result ≡ letter_of self }
    {
        match self {
            Slot::A => b'a',
            Slot::B => b'b',
        }
    }
}

/// Where a table's rows stand, and how many there are.
#[derive(Clone, Copy, Debug, PartialEq, Eq)]
pub struct Now {
    pub slot: Slot,
    pub rows: u64,
}

/// How many bytes a now file has, and where its row count begins.
pub(crate) const NOW_LEN: usize = 13;

const ROWS_AT: usize = 5;

/// The slot of a letter.
fn slot_of(letter: u8) -> Option<Slot>
    ensures { MatchOption result (is_slot letter ≡ false) (λ slot. (is_slot letter ≡ true) × (letter ≡ letter_of slot)) }
{
    match letter {
        b'a' => Some(Slot::A),
        b'b' => Some(Slot::B),
        _ => None,
    }
}

/// The last eight bytes as a number.
fn rows_in(bytes: &[u8]) -> u64
    requires { length bytes.now ≡ 13 }
    ensures { result ≡ from_le_bytes w64 (drop 5 bytes.now) }
{
    let rows = bytes.split_at(ROWS_AT).1;
    u64::from_le_bytes([
        rows[0], rows[1], rows[2], rows[3], rows[4], rows[5], rows[6], rows[7],
    ])
}

/// The now file of a slot and a row count.
#[tactic(auto, unfolding(definitions_blocks::specs::Words::word_bytes))]
pub(crate) fn now_file(slot: Slot, rows: u64) -> [u8; 13]
    ensures { result ≡ now_file (now_view (record { slot = slot; rows = rows })) }
{
    let [a, b, c, d, e, f, g, h] = rows.to_le_bytes();
    [
        b'M',
        b'N',
        b'O',
        b'W',
        slot.letter(),
        a,
        b,
        c,
        d,
        e,
        f,
        g,
        h,
    ]
}

/// What a now file says. Any other bytes say nothing.
pub fn read_now(bytes: &[u8]) -> Option<Now>
    ensures { option_map now_view result ≡ now_in bytes.now }
{
    if bytes.len() != NOW_LEN {
        return None;
    }
    let slot = slot_of(bytes[4])?;
    let rows = rows_in(bytes);
    if rows > MAX_ROWS {
        return None;
    }
    if bytes != now_file(slot, rows).as_slice() {
        return None;
    }
    Some(Now { slot, rows })
}
