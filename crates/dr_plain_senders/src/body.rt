//! What all ends of a ring share.

ghost use Rattle.std.specs.Arc.{arc_value};
ghost use Rattle.std.specs.Prelude.{◌≡◌, IfOk, IfErr};
ghost use Rattle.dr_plain_senders.specs.Meaning.Shape.{handlers_of};

use crate::laws::{RingTable, Words};
use crate::left::{HalterLeft, ReceiverLeft, SenderLeft};
use crate::over::end;
use crate::plan::Plan;
use dr_places::Places;
use std::alloc::{AllocFailed, Global};
use std::sync::Arc;

/// What all ends of a ring share: its table, what it was made for, and places in which ends that are
/// dropped leave what they hold. Once no end is there any more, it ends the ring with what they left.
pub(crate) struct RingBody<T> {
    pub(crate) table: RingTable<T>,
    pub(crate) plan: Plan<T>,
    pub(crate) senders: Places<SenderLeft<T>, Words<T>>,
    pub(crate) receivers: Places<ReceiverLeft<T>, Words<T>>,
    pub(crate) halters: Places<HalterLeft<T>, Words<T>>,
    ghost made: { table.shared.key ≡ plan },
    ghost told: { (senders.key ≡ table.shared) × (receivers.key ≡ table.shared) × (halters.key ≡ table.shared) },
    ghost many: { (senders.count ≡ plan.senders) × (receivers.count ≡ handlers_of plan) × (halters.count ≡ 1) },
}

impl<T: Drop> RingBody<T> {
    /// That of a table and a plan, with an empty place for each end. Where memory runs out, the table
    /// comes back.
    pub(crate) fn of(
        alloc: Global,
        table: RingTable<T>,
        plan: Plan<T>,
    ) -> Result<Arc<RingBody<T>, Global>, RingTable<T>>
        requires { table.shared.key ≡ plan }
        ensures made { IfOk result (λ ring. ((arc_value ring).table ≡ table) × ((arc_value ring).plan ≡ plan)) }
        ensures refused { IfErr result (λ back. back ≡ table) }
    {
        let Ok(senders) = Places::new(alloc, plan.senders(), &table.shared) else {
            return Err(table);
        };
        let Ok(receivers) = Places::new(alloc, plan.handlers(), &table.shared) else {
            return Err(table);
        };
        let Ok(halters) = Places::new(alloc, 1, &table.shared) else {
            return Err(table);
        };
        let body = RingBody {
            table,
            plan,
            senders,
            receivers,
            halters,
        };
        match Arc::new(alloc, body) {
            Ok(ring) => Ok(ring),
            Err(AllocFailed { value }) => Err(value.into_table()),
        }
    }

    // Its table, where no end shares it.
    fn into_table(self) -> RingTable<T>
        ensures { result ≡ self.table }
    {
        let RingBody {
            table,
            plan: _plan,
            senders: _senders,
            receivers: _receivers,
            halters: _halters,
        } = self;
        table
    }
}

// Where a place is empty its end never was, or is brought together with the others by `settle_all`.
impl<T: Drop> Drop for RingBody<T> {
    fn drop(self) {
        let RingBody {
            table,
            plan,
            senders,
            receivers,
            halters,
        } = self;
        let Some(senders) = senders.close() else {
            return;
        };
        let Some(receivers) = receivers.close() else {
            return;
        };
        let Some(mut halters) = halters.close() else {
            return;
        };
        let Some(halter) = halters.pop() else { return };
        drop(end(&table.shared, &plan, senders, receivers, halter));
    }
}
