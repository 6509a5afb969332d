//! One call of the links, of whatever kind.
ghost use Rattle.std.specs.Prelude.{◌≡◌, ◌<◌, ◌+◌, ◌++◌, ◌^◌, true, length};
ghost use Rattle.chip_sheet.specs.Windows.{most_read};
ghost use Rattle.chip_shared.specs.Making.{Needs, Made, is_elsewhere};

use crate::answers;
use chip_sheet::event::LinkWhat;
use chip_sheet::socket::Due;
use link_trait::links::Links;

/// Makes a call that is due, but for a read into the chip's buffer: a stream is offered the first piece of the bytes in flight, a
/// datagram is both; what is read stands at the start of the scratch piece.
pub(crate) fn make<'a, L: Links>(
    links: &mut L,
    call: &Due,
    head: &[u8],
    tail: &[u8],
    scratch: &'a mut [u8],
) -> Option<LinkWhat<'a>>
    requires needs { Needs call.now (L.shown links.old).made (length head.now) }
    requires elsewhere { is_elsewhere call.now ≡ true }
    requires few { length head.now + length tail.now < 2 ^ 32 }
    requires room { length scratch.old ≡ most_read }
    ensures { Made L.effect L.shown links.old call.now head.now (head.now ++ tail.now) result links.new }
{
    match *call {
        Due::Drop(c) => {
            links.drop_conn(c);
            answers::dropped()
        }
        Due::Connect(c, to) => answers::linked(links.connect(c, to)),
        Due::Write(c) => answers::written(links.write(c, head)),
        Due::SendTo(c, port, to) => {
            let flight = head.len() + tail.len();
            answers::sent(links.send_to(c, port, to, head, tail), flight as u32)
        }
        Due::Shut(c) => answers::shut(links.shut(c)),
        Due::Accept(c, port) => answers::accepted(links.accept(c, port)),
        Due::ReadAway(c) => {
            let answer = links.read(c, scratch);
            answers::had_read(answer, scratch)
        }
        Due::RecvFrom(c, port) => {
            let answer = links.recv_from(c, port, scratch);
            answers::received(answer, scratch)
        }
        Due::Nothing | Due::Read(_) => unreachable!(),
    }
}
