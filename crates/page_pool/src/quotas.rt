//! Laws of quotas.

ghost use Rattle.std.specs.Prelude.{◌≡◌, ◌↔◌, ℕ};
ghost use Rattle.event_log.specs.{Log.{Legal, replay}, History.IsKept};
ghost use Rattle.page_pool.specs.{State.{PoolState, is_in_range}, Answer.pool_answer, Owning.{IsPoolOf, KeepsToQuotas}, Unlimited.{is_unlimited_range, unlimited, unlimited_answer, full_quotas}, declared.params.PoolParams.PoolParams, declared.call.PoolCall.PoolCall};

use crate::PagePool;
use event_log::SeqObject;

/// The law of quotas, without effect: no owner has more pages than its quota, at the end of each log and in every `Logged`.
pub fn keeps_to_quotas()
    ensures log { (p : PoolParams) (log : _) → KeepsToQuotas (replay ⟦<PagePool as SeqObject>⟧ p log) }
    ensures logged { (h : _) → IsKept ⟦<PagePool as SeqObject>⟧ h → KeepsToQuotas h.state }
{}

/// The law of full quotas, without effect: where each quota is the number of pages, a pool can be opened for as many pages
/// as one without quotas, and answers as that one; so the same logs are legal, and they lead to the same states.
pub fn unlimited_by_full_quotas()
    ensures range { (n : ℕ) → is_in_range (full_quotas n) ≡ is_unlimited_range n }
    ensures call { (n : ℕ) (s : PoolState) (call : PoolCall) → IsPoolOf (full_quotas n) s → pool_answer s call ≡ unlimited_answer s call }
    ensures legal { (n : ℕ) (log : _) → Legal ⟦<PagePool as SeqObject>⟧ (full_quotas n) log ↔ Legal (unlimited ⟦<PagePool as SeqObject>⟧) (full_quotas n) log }
    ensures replay { (n : ℕ) (log : _) → replay ⟦<PagePool as SeqObject>⟧ (full_quotas n) log ≡ replay (unlimited ⟦<PagePool as SeqObject>⟧) (full_quotas n) log }
{}
