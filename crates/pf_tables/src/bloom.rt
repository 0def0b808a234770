//! A Bloom filter with one hash function, by which a look-up skips most lists of keys that don't have the key (Bloom,
//! Space/Time Trade-offs in Hash Coding with Allowable Errors, 1970).

ghost use Rattle.std.specs.Prelude.{◌≡◌, ℕ};
ghost use Rattle.pf_tables.specs.inner.Bloom.{bit_index};

use crate::Made;
use std::alloc::Global;

/// How many bits a rebuilt filter has for each key. It is rebuilt when it has half as many for each insertion.
const BITS_EACH: usize = 16;

/// Fewer keys than that have no filter: a search of them takes as long.
const KEYS_MIN: usize = 16;

/// 2^64 divided by the golden ratio (Knuth, The Art of Computer Programming, 6.4).
const RATIO: u64 = 11_400_714_819_323_198_485;

/// A bit for each key that was inserted, which other keys may share; none while the keys are few. Insertions are
/// counted since it was rebuilt, also of keys that are removed again, so that it is rebuilt where keys come and go.
#[derive(Drop)]
pub(crate) struct BloomFilter {
    bits: Vec<bool>,
    insertions: usize,
}

/// The index of a key's bit among that many: the sum of the key's halves is hashed by multiplication.
#[inline]
#[tactic(auto, unfolding(crate::specs::inner::Bloom::bit_index))]
fn bit_index(key: u128, count: usize) -> usize
    ensures { result ≡ bit_index key count }
{
    let upper = (key / 18_446_744_073_709_551_616) as u64;
    let lower = (key % 18_446_744_073_709_551_616) as u64;
    let hash = upper.wrapping_add(lower).wrapping_mul(RATIO) / 4_294_967_296;
    (hash.wrapping_mul(count as u64) / 4_294_967_296) as usize
}

impl BloomFilter {
    ghost use Rattle.std.specs.Prelude.{◌≡◌, ℕ, true, IfOk};
    ghost use Rattle.pf_tables.specs.inner.Bloom.{may_contain, MayContainAll};

    /// The filter of these keys.
    #[tactic(auto, using(crate::proofs::Filtering::without_bits))]
    pub(crate) fn of(alloc: Global, keys: &[u128]) -> Made<BloomFilter>
        ensures { IfOk result (λ f. MayContainAll f keys.now) }
    {
        let mut filter = BloomFilter {
            bits: Vec::new(alloc),
            insertions: 0,
        };
        filter.grow(keys)?;
        Ok(filter)
    }

    /// Whether the key may be among those that were inserted.
    #[inline]
    pub(crate) fn may_contain(&self, key: u128) -> bool
        ensures { result ≡ may_contain self.now key }
    {
        match self.bits.get(bit_index(key, self.bits.len())) {
            Some(bit) => *bit,
            None => true,
        }
    }

    /// Inserts a key.
    pub(crate) fn insert(&mut self, key: u128)
        ensures inserted { may_contain self.new key ≡ true }
        ensures kept { (k : ℕ) → may_contain self.old k ≡ true → may_contain self.new k ≡ true }
    {
        let index = bit_index(key, self.bits.len());
        if index < self.bits.len() {
            self.bits[index] = true;
        }
        self.insertions = self.insertions.saturating_add(1);
    }

    /// Makes room for one key more: where it has too few bits it is rebuilt for these keys, which were all inserted.
    pub(crate) fn grow(&mut self, keys: &[u128]) -> Made<()>
        requires { MayContainAll self.old keys.now }
        ensures { MayContainAll self.new keys.now }
    {
        if keys.len() < KEYS_MIN || self.insertions < self.bits.len() / (BITS_EACH / 2) {
            return Ok(());
        }
        self.rebuild(keys)
    }

    /// Rebuilds the filter for these keys, which were all inserted. An error changes nothing.
    #[tactic(auto, using(crate::proofs::Filtering::one_more))]
    fn rebuild(&mut self, keys: &[u128]) -> Made<()>
        requires { MayContainAll self.old keys.now }
        ensures { MayContainAll self.new keys.now }
    {
        self.bits
            .resize(keys.len().saturating_mul(BITS_EACH), false)?;
        self.bits.fill(false);
        self.insertions = 0;
        for key in keys {
            self.insert(*key);
        }
        Ok(())
    }
}
