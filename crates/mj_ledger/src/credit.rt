//! Replies that may still be sent on, counted by kind; and addresses that were used before they were anybody's.
ghost use Rattle.std.specs.Prelude.{◌≡◌, ◌+◌, ◌-◌, ℕ, Bool, List, true, nat_lt, IfOk, OnOk, if◌then◌else◌};
ghost use Rattle.std.specs.Option.{unwrap_or};
ghost use Rattle.std.specs.Str.{bytes_eq};
ghost use Rattle.mj_ledger.specs.Dues.{is_credit, is_kind};
ghost use Rattle.mj_ledger.specs.Found.{found, has};
ghost use Rattle.mj_ledger.specs.Keys;

use super::key::reply_key;
use indexmap::{IndexMap, IndexSet};
use mj_base::{Frames, NoMemory, Octets};
use std::alloc::Global;

/// One more of this kind.
pub(crate) fn raise(credits: &mut IndexMap<Vec<u8>, u64>, key: Vec<u8>) -> Result<(), NoMemory>
    ensures { OnOk result ((q : List ℕ) → unwrap_or (found credits.new q) 0 ≡ unwrap_or (found credits.old q) 0 + (if bytes_eq key.items q then 1 else 0)) }
{
    if let Some(count) = credits.get_mut(key.as_slice()) {
        add_one(count)?;
        return Ok(());
    }
    credits.insert(key, 1)?;
    Ok(())
}

fn add_one(count: &mut u64) -> Result<(), NoMemory>
    ensures { OnOk result (count.new ≡ count.old + 1) }
{
    match count.checked_add(1) {
        Some(more) => {
            *count = more;
            Ok(())
        }
        None => Err(NoMemory),
    }
}

/// One less of this kind, where there is one; and whether there was.
pub(crate) fn lower(credits: &mut IndexMap<Vec<u8>, u64>, key: &[u8]) -> bool
    ensures was { result ≡ nat_lt 0 (unwrap_or (found credits.old key.now) 0) }
    ensures less { (q : List ℕ) → unwrap_or (found credits.new q) 0 ≡ unwrap_or (found credits.old q) 0 - (if bytes_eq key.now q then 1 else 0) }
{
    match credits.get_mut(key) {
        Some(count) => take_one(count),
        None => false,
    }
}

fn take_one(count: &mut u64) -> bool
    ensures was { result ≡ nat_lt 0 count.old }
    ensures less { count.new ≡ count.old - 1 }
{
    if *count == 0 {
        return false;
    }
    *count -= 1;
    true
}

/// One more address.
pub(crate) fn claim(
    claimed: &mut IndexSet<Vec<u8>>,
    alloc: Global,
    who: &[u8],
) -> Result<(), NoMemory>
    ensures { OnOk result ((q : List ℕ) → has claimed.new q ≡ (if bytes_eq who.now q then true else has claimed.old q)) }
{
    claimed.insert(Vec::from_slice(alloc, who)?)?;
    Ok(())
}

/// One more reply of this kind, where there is a service.
pub(crate) fn credit(
    credits: &mut IndexMap<Vec<u8>, u64>,
    alloc: Global,
    to: &[u8],
    service: Option<Octets>,
    last: bool,
    body: &Frames,
) -> Result<(), NoMemory>
    ensures { OnOk result ((q s : List ℕ) (l : Bool) (b : List (List ℕ)) → unwrap_or (found credits.new (Keys.reply_key q s l b)) 0 ≡ unwrap_or (found credits.old (Keys.reply_key q s l b)) 0 + (if is_credit to.now service last body.now q s l b then 1 else 0)) }
{
    match service {
        Some(service) => raise(
            credits,
            reply_key(alloc, to, service.as_slice(), last, body)?,
        ),
        None => Ok(()),
    }
}

/// One reply of this kind less, where there is one; and whether there was.
pub(crate) fn debit(
    credits: &mut IndexMap<Vec<u8>, u64>,
    alloc: Global,
    to: &[u8],
    service: &[u8],
    last: bool,
    body: &Frames,
) -> Result<bool, NoMemory>
    ensures was { IfOk result (λ was. was ≡ nat_lt 0 (unwrap_or (found credits.old (Keys.reply_key to.now service.now last body.now)) 0)) }
    ensures less { OnOk result ((q s : List ℕ) (l : Bool) (b : List (List ℕ)) → unwrap_or (found credits.new (Keys.reply_key q s l b)) 0 ≡ unwrap_or (found credits.old (Keys.reply_key q s l b)) 0 - (if is_kind to.now service.now last body.now q s l b then 1 else 0)) }
{
    let key = reply_key(alloc, to, service, last, body)?;
    Ok(lower(credits, key.as_slice()))
}
