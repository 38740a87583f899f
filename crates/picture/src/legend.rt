//! What the lines and glyphs of a picture mean.

use crate::messages::Messages;
use page::Scale;
use std::alloc::AllocError;

const LEGEND: &str = "<g class=\"c0\">
<path class=\"band\" d=\"M1250,9930H1750V10110H1250z\"/><path class=\"edge\" d=\"M1250,9930H1750M1250,10110H1750\"/>
<path class=\"known\" d=\"M1250,10310H1750M1250,10390H1750\"/>
<path class=\"may\" d=\"M1250,10700H1500V10620H1750\"/>
</g>
<text x=\"1850\" y=\"10075\">train, from rear to front</text>
<text x=\"1850\" y=\"10405\">low and high of its unit</text>
<text x=\"1850\" y=\"10735\">end, how far it may go</text>
<use href=\"#bb\" x=\"5000\" y=\"10050\"/><text x=\"5200\" y=\"10075\">its unit brakes</text>
<use href=\"#mm\" x=\"5000\" y=\"10350\"/><text x=\"5200\" y=\"10405\">it passes a mark</text>
<circle class=\"gap\" cx=\"5000\" cy=\"10680\" r=\"90\"/><text x=\"5200\" y=\"10735\">smallest gap</text>
<path class=\"report\" d=\"M7450,10020H7950\"/><use href=\"#rr\" x=\"7450\" y=\"10020\"/><use href=\"#hh\" x=\"7950\" y=\"10020\"/>
<text x=\"8100\" y=\"10075\">report: sent, heard</text>
<path class=\"words\" d=\"M7450,10350H7950\"/><use href=\"#ww\" x=\"7450\" y=\"10350\"/><use href=\"#hh\" x=\"7950\" y=\"10350\"/>
<text x=\"8100\" y=\"10405\">report of a controller: sent, heard</text>
<path class=\"grant\" d=\"M7450,10680H7950\"/><use href=\"#gg\" x=\"7450\" y=\"10680\"/><use href=\"#tt\" x=\"7950\" y=\"10680\"/>
<text x=\"8100\" y=\"10735\">grant: sent, taken</text>
<use href=\"#ss\" x=\"11700\" y=\"10020\"/><text x=\"11850\" y=\"10075\">a controller restarts</text>
<text class=\"small\" x=\"1250\" y=\"11010\">A message is drawn at the place that it says, from where it was sent to each hearing or taking. What lies below the foot of the frame is drawn at its foot.</text>
";

const CUT: &str =
    "<path class=\"cut\" d=\"M11500,10350H11800\"/><text x=\"11850\" y=\"10405\">above this, places lie closer</text>
";

/// The legend, and how many messages are drawn, if not all are.
pub fn write_legend(out: &mut String, scale: Scale, messages: &Messages) -> Result<(), AllocError> {
    out.push_str(LEGEND)?;
    if scale.cut < scale.highest {
        out.push_str(CUT)?;
    }
    let sendings = messages.sendings.len();
    let sent = messages.count();
    let hearings = messages.hearings.len() as u64;
    let heard = messages.heard;
    if hearings < heard || sendings < sent {
        out.push_str("<text class=\"small\" x=\"1250\" y=\"11200\">Drawn are ")?;
        write!(out, "{sendings} of {sent} sendings and ")?;
        write!(out, "{hearings} of {heard} hearings and takings")?;
        out.push_str(": of each kind the first sent in each column of the picture.</text>\n")?;
    }
    Ok(())
}
