//! What an object of the kernel is opened with.

ghost use Rattle.std.specs.Prelude.{◌≡◌, nat_le, ◌&&◌, if◌then◌else◌, true, Some, None, IfSome};
ghost use Rattle.kernel_object.specs.declared.kind.Kind.TheVariants as kind;
ghost use Rattle.kernel_object.specs.Kernel.{kernel_in_range};
ghost use Rattle.custom_kernel.specs.{KernelModel.{opened_from, params_of}, Quotas.are_quotas};

use console_ring::MOST_BYTES;
use kernel_object::{KParams, Kind};
use page_pool::{MOST_PAGES, OWNERS, PoolParams};
use shared_queue::MOST_THREADS;
use wake_list::{MOST_CHANNELS, MOST_THREADS as MOST_SCHEDULED, SchedParams};

/// The number, if it is from `low` to `high`.
fn within(number: u64, low: u32, high: u32) -> Option<u32>
    ensures { result ≡ (if nat_le low number && nat_le number high then Some number else None) }
{
    if u64::from(low) <= number && number <= u64::from(high) {
        Some(number as u32)
    } else {
        None
    }
}

/// The quotas of all owners, if there are as many and each is in its range.
fn quotas_of(numbers: &[u64]) -> Option<[u32; OWNERS]>
    ensures { result ≡ (if are_quotas numbers.now then Some numbers.now else None) }
{
    if numbers.len() != OWNERS {
        return None;
    }
    let mut quotas = [0; OWNERS];
    for owner in 0..OWNERS {
        quotas[owner] = within(numbers[owner], 0, MOST_PAGES)?;
    }
    Some(quotas)
}

/// What a queue is opened with.
fn queue_params(numbers: &[u64]) -> Option<KParams>
    ensures { result ≡ opened_from kind.Queue numbers.now }
{
    match numbers {
        [threads] => Some(KParams::Queue(within(*threads, 1, MOST_THREADS)?)),
        _ => None,
    }
}

/// What a page pool is opened with.
fn pool_params(numbers: &[u64]) -> Option<KParams>
    ensures { result ≡ opened_from kind.Pool numbers.now }
{
    match numbers {
        [pages, quotas @ ..] => {
            let pages = within(*pages, 1, MOST_PAGES)?;
            let quotas = quotas_of(quotas)?;
            Some(KParams::Pool(PoolParams { pages, quotas }))
        }
        [] => None,
    }
}

/// What a console is opened with.
fn console_params(numbers: &[u64]) -> Option<KParams>
    ensures { result ≡ opened_from kind.Console numbers.now }
{
    match numbers {
        [bytes] => Some(KParams::Console(within(*bytes, 1, MOST_BYTES)?)),
        _ => None,
    }
}

/// What a scheduler is opened with.
fn sched_params(numbers: &[u64]) -> Option<KParams>
    ensures { result ≡ opened_from kind.Sched numbers.now }
{
    match numbers {
        [threads, channels] => {
            let threads = within(*threads, 1, MOST_SCHEDULED)?;
            let channels = within(*channels, 1, MOST_CHANNELS)?;
            Some(KParams::Sched(SchedParams { threads, channels }))
        }
        _ => None,
    }
}

/// What an object of that kind is opened with by these numbers, if one can be.
#[tactic(auto, unfolding(crate::specs::KernelModel::params_of))]
pub fn kernel_params(kind: &[u8], numbers: &[u64]) -> Option<KParams>
    ensures params { result ≡ params_of kind.now numbers.now }
    ensures able { IfSome result (λ p. kernel_in_range p ≡ true) }
{
    match Kind::of_word(kind)? {
        Kind::Queue => queue_params(numbers),
        Kind::Pool => pool_params(numbers),
        Kind::Console => console_params(numbers),
        Kind::Sched => sched_params(numbers),
    }
}
