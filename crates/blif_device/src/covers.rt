//! Values of covers.
ghost use Rattle.std.specs.Prelude.{◌≡◌, ◌<◌, All, length, map};
ghost use Rattle.blif_read.specs.Valid.{FitsCover};
ghost use Rattle.blif_device.specs.Valuations.{valuation};
ghost use Rattle.blif_device.specs.Covers.{literal_value, row_value, cover_value, any_of};

use blif_read::NetCover;
use four_state::{Bit3, Text};

/// The literal of a net with this value: `1` is the net, `0` its negation, `-` is 1.
fn literal_value(literal: u8, value: Bit3) -> Bit3
    ensures { result ≡ literal_value literal value }
{
    match literal {
        b'1' => value,
        b'0' => value.not(),
        _ => Bit3::One,
    }
}

/// The three-valued and of a row's literals, of which there is one for each input.
#[tactic(auto, unfolding(crate::specs::Covers::row_value))]
fn row_value(values: &[Bit3], inputs: &[u32], row: &[u8]) -> Bit3
    requires below { All (λ net. net < length values.now) inputs.now }
    requires size { length row.now ≡ length inputs.now }
    ensures { result ≡ row_value (valuation values.now) inputs.now row.now }
{
    let mut all = Bit3::One;
    for (index, net) in inputs.iter().enumerate() {
        all = all.and(literal_value(row[index], values[*net as usize]));
    }
    all
}

/// The three-valued or of the rows.
fn rows_value(values: &[Bit3], inputs: &[u32], rows: &[Text]) -> Bit3
    requires below { All (λ net. net < length values.now) inputs.now }
    requires size { All (λ row. length row ≡ length inputs.now) rows.now }
    ensures { result ≡ any_of (map (row_value (valuation values.now) inputs.now) rows.now) }
{
    let mut any = Bit3::Zero;
    for row in rows {
        any = any.or(row_value(values, inputs, row.as_slice()));
    }
    any
}

/// The value of a cover's output.
#[tactic(auto, unfolding(crate::specs::Covers::cover_value))]
pub fn cover_value(values: &[Bit3], cover: &NetCover) -> Bit3
    requires { FitsCover (length values.now) cover.now }
    ensures { result ≡ cover_value (valuation values.now) cover.now }
{
    let rows = cover.rows.as_slice();
    let any = rows_value(values, cover.inputs.as_slice(), rows);
    match rows {
        [] => Bit3::Zero,
        [..] => { if cover.on { any } else { any.not() } }
    }
}
