//! A page pool, once more.

ghost use Rattle.std.specs.Prelude.{◌≡◌, ◌≤◌, nat_le};
ghost use Rattle.page_pool.specs.{Table.{left_of, least_free, held_by, quota_of}, Answer.{alloc_answer, free_answer}};

use crate::ReferenceObject;
use event_log::OutOfMemory;
use page_pool::{OWNERS, PagePool, PoolCall, PoolParams, PoolReply};
use std::alloc::Global;
use std::marker::Model;

/// The quota of each owner; the owner of each page, or none; how many pages each owner has, and how many have no owner; and
/// a page below which every one has an owner.
#[derive(Drop)]
pub struct ReferencePool {
    quotas: [u32; OWNERS],
    owners: Vec<Option<u8>>,
    held: [u32; OWNERS],
    free: u32,
    full_below: usize,
}

impl Model for ReferencePool {
    ghost use Rattle.std.specs.Prelude.{◌≡◌, ◌<◌, ◌≤◌, ◌^◌, length};
    ghost use Rattle.page_pool.specs.{State.PoolState, Table.left_of};
    ghost use Rattle.auditor.specs.Pages.{AreTakenBelow, AreCounted};

    ghost Value = { PoolState };

    ghost view = { λ s. record { pages = length s.owners.items; quotas = s.quotas; owners = s.owners.items } };

    ghost invariant = { λ s. AreTakenBelow s.full_below s.owners.items × (s.full_below ≤ length s.owners.items) ×
        (s.free ≡ left_of s.owners.items) × (length s.owners.items < 2 ^ 32) × AreCounted s.held s.owners.items };
}

impl ReferencePool {
    /// The least page without an owner, looked for from the page on below which none is free.
    fn least_free(&self) -> Option<usize>
        ensures { result ≡ least_free self.now.owners }
    {
        for page in self.full_below..self.owners.len() {
            if self.owners[page].is_none() {
                return Some(page);
            }
        }
        None
    }

    /// Whether the owner has as many pages as its quota.
    fn is_over(&self, owner: u32) -> bool
        requires { owner ≤ 15 }
        ensures { result ≡ nat_le (quota_of self.now.quotas owner) (held_by self.now.owners owner) }
    {
        self.held[owner as usize] >= self.quotas[owner as usize]
    }

    fn give(&mut self, owner: u32) -> PoolReply
        ensures { (self.new, result) ≡ alloc_answer self.old owner }
    {
        if owner > 15 {
            return PoolReply::BadOwner;
        }
        let Some(page) = self.least_free() else {
            self.full_below = self.owners.len();
            return PoolReply::NoPage;
        };
        if self.is_over(owner) {
            self.full_below = page;
            return PoolReply::OverQuota;
        }
        self.owners[page] = Some(owner as u8);
        self.held[owner as usize] += 1;
        self.free -= 1;
        self.full_below = page + 1;
        PoolReply::Page(page as u32)
    }

    fn take_back(&mut self, owner: u32, page: u32) -> PoolReply
        ensures { (self.new, result) ≡ free_answer self.old owner page }
    {
        let place = page as usize;
        if owner > 15 {
            return PoolReply::BadOwner;
        }
        if place >= self.owners.len() {
            return PoolReply::BadPage;
        }
        match self.owners[place] {
            None => PoolReply::NotTaken,
            Some(other) if u32::from(other) == owner => {
                self.owners[place] = None;
                self.held[owner as usize] -= 1;
                self.free += 1;
                self.full_below = self.full_below.min(place);
                PoolReply::Ok
            }
            Some(_) => PoolReply::NotYours,
        }
    }

    fn count(&self) -> u32
        ensures { result ≡ left_of self.now.owners }
    {
        self.free
    }
}

impl ReferenceObject<PagePool> for ReferencePool {
    ghost shows = { λ s. s };

    fn open(alloc: Global, params: &PoolParams) -> Result<ReferencePool, OutOfMemory> {
        let owners = vec![in alloc; None; params.pages as usize]?;
        Ok(ReferencePool {
            quotas: params.quotas,
            owners,
            held: [0; OWNERS],
            free: params.pages,
            full_below: 0,
        })
    }

    fn apply(&mut self, call: &PoolCall) -> PoolReply {
        match *call {
            PoolCall::Alloc(owner) => self.give(owner),
            PoolCall::Free { owner, page } => self.take_back(owner, page),
            PoolCall::Left => PoolReply::Count(self.count()),
        }
    }
}
