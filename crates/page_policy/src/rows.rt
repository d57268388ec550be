//! The counters of one page, and what they choose.
ghost use Rattle.std.specs.Prelude.{◌≡◌, ◌+◌, ◌<◌, ◌≤◌, ◌==◌, ◌++◌, length, take, drop, replicate};
ghost use Rattle.std.specs.List.{list_all};
ghost use Rattle.private_machine.specs.Policy.{alone_misses, choice, reaches as is_reached};
ghost use Rattle.page_policy.specs.Choices.{kind_of, IsTo};

use crate::Choice;
use base_words::{NodeId, Policy};

/// The counters of a page, which begin here.
#[inline]
pub fn row(counts: &[u64], start: usize, nodes: usize) -> &[u64]
    requires { start + nodes ≤ length counts.now }
    ensures { result.now ≡ take nodes (drop start counts.now) }
{
    &counts[start..start + nodes]
}

/// The counters of a page, which begin here, start anew.
pub fn clear(counts: &mut [u64], start: usize, nodes: usize)
    requires { start + nodes ≤ length counts.old }
    ensures { counts.new
        ≡ take start counts.old ++ (replicate nodes 0 ++ drop (start + nodes) counts.old) }
{
    counts[start..start + nodes].fill(0);
}

/// Whether a count reaches a threshold; one of 0 is never reached.
#[inline]
fn reaches(threshold: u32, count: u64) -> bool
    ensures { result ≡ is_reached threshold count }
{
    threshold != 0 && u64::from(threshold) <= count
}

/// Whether all counters are 0.
fn are_zeros(counts: &[u64]) -> bool
    ensures { result ≡ list_all (λ n. n == 0) counts.now }
{
    counts.iter().all(|count| *count == 0)
}

/// Whether all counters but a node's are 0.
fn is_alone(counts: &[u64], node: usize) -> bool
    requires { node < length counts.now }
    ensures { result ≡ alone_misses node counts.now }
{
    are_zeros(&counts[..node]) && are_zeros(&counts[node + 1..])
}

/// What the policy chooses for a page with these counters and this mark, after a miss of a node.
pub fn choose(policy: &Policy, counts: &[u64], written: bool, node: NodeId) -> Choice
    requires { node.0 < length counts.now }
    ensures kind { kind_of result ≡ choice policy.now node.0 (record { by_node = counts.now; written = written }) }
    ensures node { IsTo node result }
{
    let count = counts[node.0 as usize];
    if reaches(policy.migrate, count) && is_alone(counts, node.0 as usize) {
        Choice::Migrate(node)
    } else if reaches(policy.replicate, count) && !written {
        Choice::Replicate(node)
    } else {
        Choice::Stay
    }
}
