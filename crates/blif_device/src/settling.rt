//! One pass over the nets that settles them.
ghost use Rattle.std.specs.Prelude.{◌≡◌, ◌<◌, All, length};
ghost use Rattle.blif_device.specs.Valuations.{valuation};
ghost use Rattle.blif_device.specs.Sources.{source_at, source_value};
ghost use Rattle.blif_device.specs.Passes.{CanPass, pass_over};

use crate::covers::cover_value;
use crate::sources::Source;
use blif_read::NetCover;
use four_state::Bit3;

/// The value that a net's source gives it now.
fn source_value(
    values: &[Bit3],
    covers: &[NetCover],
    sources: &[Source],
    driven: &[Bit3],
    held: &[Bit3],
    net: usize,
) -> Bit3
    requires pass { CanPass covers.now sources.now driven.now held.now }
    requires size { length values.now ≡ length sources.now }
    requires net { net < length sources.now }
    ensures { result ≡ source_value (valuation values.now) covers.now (valuation driven.now) held.now net (source_at sources.now net) }
{
    match sources[net] {
        Source::Clock => Bit3::X,
        Source::Driven => driven[net],
        Source::Latch(index) => held[index],
        Source::Cover(index) => match covers.get(index) {
            Some(cover) => cover_value(values, cover),
            None => Bit3::X,
        },
    }
}

/// Gives each net the value of its source, in this order.
pub fn settle_all(
    values: &mut Vec<Bit3>,
    covers: &[NetCover],
    sources: &[Source],
    order: &[usize],
    driven: &[Bit3],
    held: &[Bit3],
)
    requires pass { CanPass covers.now sources.now driven.now held.now }
    requires size { length values.old.items ≡ length sources.now }
    requires below { All (λ net. net < length sources.now) order.now }
    ensures { values.new.items ≡ pass_over covers.now sources.now (valuation driven.now) held.now values.old.items order.now }
{
    for net in order {
        values[*net] = source_value(values, covers, sources, driven, held, *net);
    }
}
