// How a caller holds a ticket: it is shown to rounds and questions, and ends in a close.
use back_end::BackEnd;
use console_sets::ConsoleSet;
use orders::Order;
use rig::{End, Rig, Ticket};
use rounds::Refusal;

// A press with one round. A ticket that close refuses comes back.
fn one_round<B: BackEnd, P: Order>(
    rig: &mut Rig<B>,
    proposals: &[P],
    rows: &[ConsoleSet],
) -> Result<Result<End, (Refusal, Ticket)>, Refusal> {
    let ticket = rig.press(proposals)?;
    let _ = rig.round(&ticket, 0, rows);
    Ok(rig.close(ticket))
}
