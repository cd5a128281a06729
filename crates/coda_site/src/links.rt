// The links between clients and servers, as lines name them.
ghost use Rattle.std.specs.Prelude.{◌≡◌, ℕ, true, false, OnOk};
ghost use Rattle.coda_script.specs.declared.line.Strength.TheVariants.{Down};
ghost use Rattle.coda_cell.specs.Cells.{linked_in, strength_of};
ghost use Rattle.coda_cell.specs.State.{linked};
ghost use Rattle.coda_cell.specs.States.{link_with};

use coda_net::{Letter, Net, NetFault};
use coda_script::Strength;
use coda_state::Link;

/// A link of this strength.
pub fn link_of(strength: Strength) -> Link
    ensures strength { strength_of result ≡ strength }
    ensures link { result ≡ link_with strength }
{
    match strength {
        Strength::Strong => Link::Strong,
        Strength::Weak => Link::Weak,
        Strength::Down => Link::Down,
    }
}

/// How well a client reaches a server. A link that wasn't set is down.
pub fn strength(net: &Net, client: u8, server: u8) -> Strength
    ensures { result ≡ linked_in net.now client server }
{
    match net.link(client, server) {
        Link::Strong => Strength::Strong,
        Link::Weak => Strength::Weak,
        Link::Down => Strength::Down,
    }
}

/// Sets the strength of a link. Fails for want of memory alone.
pub fn set_strength(
    net: &mut Net,
    client: u8,
    server: u8,
    strength: Strength,
) -> Result<(), NetFault>
    ensures links { OnOk result ((c s : ℕ)
        → linked_in net.new c s ≡ linked (linked_in net.old) client server strength c s) }
    ensures letters { net.new.letters ≡ net.old.letters }
    ensures posted { net.new.posted ≡ net.old.posted }
{
    net.set_link(client, server, link_of(strength))
}

/// Cuts the link between the ends of a letter that was lost, where it is one that may not be lost for the limits. Fails
/// for want of memory alone.
pub fn cut_with(net: &mut Net, letter: &Letter) -> Result<(), NetFault>
    ensures lossy { OnOk result (letter.now.lossy ≡ true → net.new ≡ net.old) }
    ensures links { OnOk result (letter.now.lossy ≡ false → (c s : ℕ)
        → linked_in net.new c s ≡ linked (linked_in net.old) letter.now.client letter.now.server Down c s) }
    ensures letters { net.new.letters ≡ net.old.letters }
    ensures posted { net.new.posted ≡ net.old.posted }
{
    if letter.lossy {
        return Ok(());
    }
    set_strength(net, letter.client, letter.server, Strength::Down)
}
