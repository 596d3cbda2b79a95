//! The names, colours and dashes that distinguish the lines of a chart.
ghost use Rattle.std.specs.Prelude.{◌≡◌, OnOk};
ghost use Rattle.std.specs.Io.KnownBytes.{Appends};
ghost use Rattle.bp_charts.specs.Labels.{legend_text, name_of_k, name_text, row_of, sample_text, style_text};

use crate::curves::Which;
use std::io;
use std::io::Write;

fn write_k<W: Write>(k: usize, writer: &mut W) -> io::Result<()>
    ensures { OnOk result (Appends (W.contents writer.old) (W.contents writer.new) (name_of_k k)) }
{
    if k == 1 {
        write!(writer, "K = 1 (LRU)")
    } else {
        write!(writer, "K = {k}")
    }
}

/// Writes the name of a line in the legend.
fn write_name<W: Write>(which: Which, writer: &mut W) -> io::Result<()>
    ensures { OnOk result (Appends (W.contents writer.old) (W.contents writer.new)
        (name_text which)) }
{
    match which {
        Which::K(k) => write_k(k, writer),
        Which::Optimum => write!(writer, "optimum"),
    }
}

/// Opens the group of the line with this number: its colour and dash. The optimum's line is black.
pub(crate) fn write_style<W: Write>(which: Which, number: usize, writer: &mut W) -> io::Result<()>
    ensures { OnOk result (Appends (W.contents writer.old) (W.contents writer.new)
        (style_text which number)) }
{
    match which {
        Which::K(_) => {
            let colour = number % 6;
            let dash = number % 5;
            writeln!(writer, "<g class='c{colour} d{dash}'>")
        }
        Which::Optimum => writeln!(writer, "<g class='optimum'>"),
    }
}

/// Returns the place of this line's row in the legend, in tenths of a pixel from the top.
fn row_of(number: usize) -> u128
    ensures { result ≡ row_of number }
{
    500 + 210 * number as u128
}

/// Writes a sample of a line into a row of the legend, and opens its name.
#[tactic(auto, unfolding(crate::specs::Labels::sample_text))]
fn write_sample<W: Write>(row: u128, writer: &mut W) -> io::Result<()>
    ensures { OnOk result (Appends (W.contents writer.old) (W.contents writer.new)
        (sample_text row)) }
{
    write!(
        writer,
        "<path d='M7450 {row}h600'/><text x='8150' y='{row}' dy='45'>"
    )
}

/// Writes this line's row of the legend, and closes the group of the line.
pub(crate) fn write_legend<W: Write>(which: Which, number: usize, writer: &mut W) -> io::Result<()>
    ensures { OnOk result (Appends (W.contents writer.old) (W.contents writer.new)
        (legend_text which number)) }
{
    write_sample(row_of(number), writer)?;
    write_name(which, writer)?;
    writeln!(writer, "</text>\n</g>")
}
