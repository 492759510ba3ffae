// A message written and received.
ghost use Rattle.history.specs.Claims.{Delivered};
ghost use Rattle.receiver.specs.Events.{told};
ghost use Rattle.history.specs.Sending.{LoopsBack};

use foundation::refusal::Refusal;
use messages::message::Delivery;
use receiver::event::Answer;
use receiver_state::STORE;

// Writes a message, gives it whole and in order to a fresh receiver of its destination, and tells the answer to the last block. The message
// then stands in front in the store, its pad and its check behind it, and the rest of the store is as it was. As the self-test of writer and
// receiver it also promises that restarts between the events change nothing.
pub fn loop_back(message: &[u8], d: Delivery, store: &mut [u8]) -> Result<Answer, Refusal>
    ensures { LoopsBack message.now d store.old (told result) store.new × Delivered message.now d }
{
    if store.len() != STORE {
        return Err(Refusal::Size);
    }
    let header = messages::message::full_header(message.len(), d)?;
    let size = messages::message::size_of(message.len())?;
    let fresh = receiver_state::idle(d.destination);
    let opened = receiver::event::on_header(fresh, &header);
    let mut rx = opened.receiver;
    let mut last = opened.answer;
    for n in 0..size.blocks as usize {
        let block = messages::message::block(message, n)?;
        let step = receiver::event::on_block(rx, store, &block);
        rx = step.receiver;
        last = step.answer;
    }
    last
}
