//! The answers of a ledger.

use dr_accounts::{Business, Responder};
use dr_meaning::show;
use dr_operations::events_of_pieces;
use std::test::Fail;

const PAST: &[u8] = b"0,deposit,1,100\n";

const LATER: &[u8] =
    b"0,withdraw,1,30\n0,withdraw,1,71\n0,transfer,1,7,70\n0,transfer,7,7,70\n0,transfer,1,7,1\n0,deposit,7,5\n";

const ANSWERS: &str =
    "1 applied 70\n2 refused 70\n3 applied 0\n4 applied 70\n5 refused 0\n6 applied 75\n";

#[test]
fn answers_of_six(rt: HostRuntime) -> Result<(), Fail> {
    let alloc = rt.alloc();
    let (Ok(past), Ok(later)) = (
        events_of_pieces(alloc, &vec![in alloc; PAST.to_vec(alloc)?]?),
        events_of_pieces(alloc, &vec![in alloc; LATER.to_vec(alloc)?]?),
    ) else {
        return Err("two event files".into());
    };
    let mut business = Business::new(alloc);
    show(&mut business, past.as_slice(), 0, true);
    let mut responder = Responder::new(alloc, business);
    show(&mut responder, later.as_slice(), 1, true);
    assert_eq!(rt; responder.answers(), ANSWERS);
    responder.clear();
    show(&mut responder, past.as_slice(), 7, true);
    assert_eq!(rt; responder.answers(), "7 applied 100\n");
    assert!(rt; !responder.is_failed());
    Ok(())
}
