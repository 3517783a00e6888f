//! A block as its runs.

ghost use Rattle.std.specs.Prelude.{◌≡◌, List, length};
ghost use Rattle.definitions_blocks.specs.Blocks.{block_values};
ghost use Rattle.definitions_blocks.specs.Runs.{Run, AreRunsOf, IsRunsBlock, run_count};
ghost use Rattle.definitions_blocks.proofs.RunBlockLaws.{IsRunsBlock-octets, IsRunsBlock-one, IsRunsBlock-front, IsRunsBlock-sized};

use crate::cells::{HEAD_LEN, block_size, cells_of, run_count_in};
use crate::reading::{found_count, write_values};
use crate::writing::{count_runs, put_count, put_runs};
use block_core::{Block, Packing};

/// A block as its runs: two bytes for how many there are, and for each a value in eight bytes and a length in two. Each run is
/// as long as it can be. The head is the number of runs, from 1 to 1,024, so a block takes `2 + 10 * runs` bytes.
pub struct Runs;

impl Packing for Runs {
    type Param = ();

    type Head = u16;

    ghost encodes = { λ _ values bytes. IsRunsBlock values bytes };

    ghost block_head = { λ _ values. run_count values };

    fn head_of(_param: (), full: &Block) -> u16
        requires { length full.now ≡ block_values }
        ensures count { result ≡ run_count full.now }
        ensures runs { (runs : List Run) → AreRunsOf runs full.now → result ≡ length runs }
    {
        count_runs(full.as_slice())
    }

    fn byte_len(_param: (), runs: u16) -> usize {
        block_size(runs)
    }

    fn head_in(_param: (), bytes: &[u8]) -> u16 {
        run_count_in(bytes)
    }

    fn encode(_param: (), runs: u16, full: &Block, into: &mut [u8]) {
        put_count(runs, &mut into[..HEAD_LEN]);
        put_runs(full.as_slice(), &mut into[HEAD_LEN..]);
    }

    fn check(_param: (), bytes: &[u8]) -> Option<(u16, usize)> {
        match found_count(bytes) {
            Some(runs) => Some((runs, block_size(runs))),
            None => None,
        }
    }

    fn decode(_param: (), runs: u16, bytes: &[u8], into: &mut Block) {
        into.fill();
        write_values(cells_of(bytes, runs), into.as_mut_slice());
    }

    ghost laws = { record {
      full = λ _ values bytes is. is.full;
      octets = λ _ values bytes is. IsRunsBlock-octets values bytes is;
      one = λ _ values a b is be. IsRunsBlock-one values a b is be;
      front = λ _ values others a b x y is be e. IsRunsBlock-front values others a b x y is be e;
      sized = λ _ values others a b is be same. IsRunsBlock-sized values others a b is be same;
    } };
}
