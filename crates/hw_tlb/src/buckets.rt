//! The buckets of virtual pages. Those of one bucket share a count and a hint.
ghost use Rattle.std.specs.Prelude.{◌≡◌, ◌/◌, ◌%◌, ◌^◌, ◌<◌};
ghost use Rattle.hw_tlb.specs.Counts.{bucket_of_number, bucket_of_key};

use crate::room::SPACES;

/// How many buckets there are.
const BUCKETS: u32 = 1 << 8;
/// How far one address space's buckets are from the next one's.
const STRIDE: u32 = 37;

/// The bucket of a virtual page's number.
#[inline]
pub fn number_bucket(number: u32) -> usize
    requires { number < 2 ^ 24 }
    ensures bucket { result ≡ bucket_of_number number }
    ensures small { result < 256 }
{
    ((number + number / BUCKETS) % BUCKETS) as usize
}

/// The bucket of a key, of the number and the address space.
#[inline]
pub fn key_bucket(key: u32) -> usize
    ensures bucket { result ≡ bucket_of_key (key / 256) (key % 256) }
    ensures small { result < 256 }
{
    let number = key / SPACES;
    ((number + number / BUCKETS + STRIDE * (key % SPACES)) % BUCKETS) as usize
}
