ghost use Rattle.std.specs.Prelude.{◌≡◌, ◌<◌, ◌≤◌, ◌∷◌, ◌++◌, [], ℕ, true, false, max, length, Ok, IfOk, OnOk, IsErrOf};
ghost use Rattle.desk_core.specs.Past.{past};
ghost use Rattle.desk_core.specs.Legal.{IsLegal};
ghost use Rattle.desk_core.specs.Left.{Holds};
ghost use Rattle.journal_store.specs.Record.{restored, restored_of};
ghost use Rattle.journal_store.specs.Restored.{IsIllegalAt};
ghost use Rattle.journal_store.specs.declared.restore_fault.RestoreFault.TheVariants.{Illegal};

use crate::restore_fault::RestoreFault;
use desk_core::{Call, Desk, Keep, Refusal};
use entry_record::Stored;
use probe_core::{Maker, Probe};
use std::alloc::{AllocError, Global};

/// The seat of the entries that an earlier run made: the first of the new run, as of a setup.
pub(crate) const EARLIER: u16 = 0;

/// The registry that the entries of a file make, over the store that has them. It takes so many entries in all; where it has as many or
/// more, it is full.
pub fn restore<P: Probe, K: Keep, Q: Maker<P>>(
    alloc: Global,
    max_entries: u32,
    store: K,
    stored: &[Stored],
    maker: &Q,
) -> Result<Desk<P, K>, RestoreFault>
    requires stands { K.stands store (restored_of stored.now) }
    requires holds { Holds (K.left store) (restored_of stored.now) }
    ensures journal { IfOk result (λ desk. desk.journal ≡ restored_of stored.now) }
    ensures most { IfOk result (λ desk.
        desk.max_entries ≡ max max_entries (length stored.now)) }
    ensures stored { IfOk result (λ desk. (desk.is_stored ≡ true) × (desk.left ≡ K.left store)) }
    ensures illegal { (n : ℕ) → IsErrOf result (Illegal n)
        → IsIllegalAt (restored_of stored.now) n }
{
    let Ok(len) = u32::try_from(stored.len()) else {
        return Err(RestoreFault::TooLong);
    };
    let mut desk = Desk::new(alloc, max_entries.max(len));
    match make_all_again(&mut desk, stored, maker) {
        Ok(()) => Ok(desk.stored_in(store)),
        Err(fault) => Err(fault),
    }
}

/// Makes the changes of stored entries again, the oldest first.
fn make_all_again<P: Probe, K: Keep, Q: Maker<P>>(
    desk: &mut Desk<P, K>,
    stored: &[Stored],
    maker: &Q,
) -> Result<(), RestoreFault>
    requires new { desk.old.journal ≡ [] }
    requires room { length stored.now ≤ desk.old.max_entries }
    requires unstored { desk.old.is_stored ≡ false }
    ensures most { desk.new.max_entries ≡ desk.old.max_entries }
    ensures journal { OnOk result (desk.new.journal ≡ restored_of stored.now) }
    ensures illegal { (n : ℕ) → IsErrOf result (Illegal n)
        → IsIllegalAt (restored_of stored.now) n }
{
    for number in 0..stored.len() {
        if !make_again(desk, &stored[number], maker)? {
            return Err(RestoreFault::Illegal(number));
        }
    }
    Ok(())
}

/// Makes the change of a stored entry again. Says whether its reply is the stored one.
fn make_again<P: Probe, K: Keep, Q: Maker<P>>(
    desk: &mut Desk<P, K>,
    stored: &Stored,
    maker: &Q,
) -> Result<bool, AllocError>
    requires room { length desk.old.journal < desk.old.max_entries }
    requires unstored { desk.old.is_stored ≡ false }
    ensures most { desk.new.max_entries ≡ desk.old.max_entries }
    ensures unstored { desk.new.is_stored ≡ false }
    ensures made { result ≡ Ok true
        → desk.new.journal ≡ desk.old.journal ++ restored stored.now ∷ [] }
    ensures legal { result ≡ Ok true → IsLegal (past desk.old.journal)
        → IsLegal (past (desk.old.journal ++ restored stored.now ∷ [])) }
    ensures illegal { result ≡ Ok false
        → IsLegal (past (desk.old.journal ++ restored stored.now ∷ [])) → ⊥ }
{
    let entry = stored.entry;
    let probe = match entry.call {
        Call::Register(_, rule) => Some(maker.make(rule)?),
        Call::Retire(_) | Call::Observe(..) | Call::Set(..) | Call::Shutdown | Call::Resume => None,
    };
    match desk.change(EARLIER, entry.call, probe) {
        Ok(made) => Ok(made.reply == entry.reply),
        Err((refusal, _)) => match refusal {
            Refusal::BadRule => Ok(false),
            Refusal::NoMemory => Err(AllocError),
            Refusal::Full | Refusal::NotListed | Refusal::NotStored => unreachable!(),
        },
    }
}
