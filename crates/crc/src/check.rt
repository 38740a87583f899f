// The CRC-32 of bytes, four at a time by four tables, and those that are left at the end one at a time by the first.
ghost use Rattle.crc.specs.Crc.{after_byte, after_bytes, crc32_of};
ghost use Rattle.crc.specs.Table.{by_table, by_tables};
ghost use Rattle.std.specs.Prelude.{◌≡◌};

use crate::later_tables::{one_later, three_later, two_later};
use crate::table::entry;

// The register's 32 bits at the start; exclusive or with them inverts it at the end.
const ALL_ONES: u32 = 0xffff_ffff;

pub fn crc32(bytes: &[u8]) -> u32
    ensures { result ≡ crc32_of bytes.now }
{
    after_bytes(ALL_ONES, bytes) ^ ALL_ONES
}

// A byte at a time, each look-up would wait for the one before it; of four bytes at once none waits for another.
#[tactic(auto, using(crate::proofs::Fours::fours_first), unfolding(crate::specs::Crc::after_bytes))]
fn after_bytes(register: u32, bytes: &[u8]) -> u32
    ensures { result ≡ after_bytes register bytes.now }
{
    let (fours, rest) = bytes.as_chunks::<4>();
    let register = fours
        .iter()
        .fold(register, |after, four| after_four(after, *four));
    rest.iter()
        .fold(register, |after, byte| after_byte(after, *byte))
}

fn after_four(register: u32, bytes: [u8; 4]) -> u32
    ensures { result ≡ after_bytes register bytes }
{
    by_tables(register, bytes)
}

// Each byte has a table of its own, by how many bytes come after it.
fn by_tables(register: u32, bytes: [u8; 4]) -> u32
    ensures { result ≡ by_tables register bytes }
{
    let [first, second, third, fourth] = (register ^ u32::from_le_bytes(bytes)).to_le_bytes();
    three_later(first) ^ two_later(second) ^ one_later(third) ^ entry(fourth)
}

#[tactic(auto, using(crate::proofs::Linear::table_byte))]
fn after_byte(register: u32, byte: u8) -> u32
    ensures { result ≡ after_byte register byte }
{
    by_table(register, byte)
}

// The eight bits that fall out meet the byte; the table has what they leave in the others, which move down.
fn by_table(register: u32, byte: u8) -> u32
    ensures { result ≡ by_table register byte }
{
    (register >> 8) ^ entry(((register & 0xff) as u8) ^ byte)
}
