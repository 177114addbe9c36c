//! What a page pool is opened for.

ghost use Rattle.std.specs.{Prelude.{◌≡◌, nat_le}, List.list_all};
ghost use Rattle.page_pool.specs.{State.is_in_range, Unlimited.full_quotas};

/// The most pages that a pool can be opened for, and the greatest quota.
pub const MOST_PAGES: u32 = 4096;

/// How many owners there are.
pub const OWNERS: usize = 16;

/// Owners are 0 to this number.
pub const LAST_OWNER: u32 = OWNERS as u32 - 1;

/// What a pool is opened for: the pages 0 to `pages - 1`, and for each owner a quota, the most pages that it may have at
/// once. A pool can be opened for 1 to 4,096 pages, and each quota is 0 to 4,096; else its opening answers BadLimit.
#[derive(Clone, Copy, Debug, PartialEq, Eq, Drop)]
pub struct PoolParams {
    pub pages: u32,
    /// Entry o is the quota of owner o.
    pub quotas: [u32; OWNERS],
}

impl PoolParams {
    /// So many pages, and as many for each owner: no owner of such a pool is ever over its quota.
    pub fn unlimited(pages: u32) -> PoolParams
        ensures { result ≡ full_quotas pages }
    {
        PoolParams {
            pages,
            quotas: [pages; OWNERS],
        }
    }

    /// Whether a pool can be opened for them.
    pub(crate) fn is_in_range(&self) -> bool
        ensures { result ≡ is_in_range self.now }
    {
        self.pages >= 1 && self.pages <= MOST_PAGES && are_in_range(&self.quotas)
    }
}

/// Whether each quota is at most the most pages of a pool.
fn are_in_range(quotas: &[u32; OWNERS]) -> bool
    ensures { result ≡ list_all (λ quota. nat_le quota 4096) quotas.now }
{
    quotas.iter().all(|quota| *quota <= MOST_PAGES)
}
