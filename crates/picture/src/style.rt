//! How all that is drawn looks.

use crate::drawing::Drawing;
use crate::glyphs::GLYPHS;
use page::write_shapes;
use std::alloc::AllocError;

/// All that is drawn alike, by classes.
const STYLE: &str = "<style>
text{font-family:sans-serif;font-size:160px;fill:#222;stroke:none}
.name{font-size:290px;font-weight:bold}
.wrong{font-weight:bold;fill:#a83a00}
.small{font-size:135px}
.to{text-anchor:end}
.on{text-anchor:middle}
.page{fill:#fff}
.frame{fill:none;stroke:#444;stroke-width:12}
.grid{fill:none;stroke:#ddd;stroke-width:8}
.cut{fill:none;stroke:#444;stroke-width:10;stroke-dasharray:10 30}
.c0{stroke:#0072b2;fill:#0072b2}
.c1{stroke:#d08a00;fill:#d08a00}
.c2{stroke:#00785a;fill:#00785a}
.c3{stroke:#56a9dd;fill:#56a9dd}
.c4{stroke:#a8518a;fill:#a8518a}
.c5{stroke:#969696;fill:#969696}
.band{fill-opacity:.28;stroke:none}
.edge{fill:none;stroke-linejoin:round}
.known{fill:none}
.may{fill:none;stroke-dasharray:70 35}
.lead{fill:none;stroke-width:6}
.report{fill:none;stroke:#222;stroke-width:10}
.words{fill:none;stroke:#222;stroke-width:10;stroke-dasharray:30 25}
.grant{fill:none;stroke:#e8dc6a;stroke-width:50}
.gap{fill:none;stroke:#000;stroke-width:16}
.point{fill:none;stroke:#000;stroke-width:8;stroke-dasharray:12 28}
.stop{fill:none;stroke:#a83a00;stroke-width:24;stroke-dasharray:90 45}
";

/// How thick the lines of trains are: of many trains they are thinner.
const FEW_TRAINS: &str = ".edge{stroke-width:20}
.known{stroke-width:7}
.may{stroke-width:16}
";

const MANY_TRAINS: &str = ".edge{stroke-width:11}
.known{stroke-width:5}
.may{stroke-width:9}
";

/// More trains than these are many.
const MANY: usize = 16;

/// The classes, and the shapes of the glyphs.
pub fn write_style(out: &mut String, drawing: &Drawing) -> Result<(), AllocError> {
    let trains = drawing.tracks.len();
    out.push_str(STYLE)?;
    out.push_str(if trains > MANY {
        MANY_TRAINS
    } else {
        FEW_TRAINS
    })?;
    out.push_str("</style>\n<defs>\n")?;
    write_shapes(out, &GLYPHS, percent(drawing.columns, trains as u64))?;
    out.push_str("</defs>\n")
}

/// How large glyphs are: where many events or trains stand side by side they are smaller.
fn percent(columns: u64, trains: u64) -> u64 {
    let by_columns = 24_000 / columns.max(1);
    let by_trains = 1_600 / trains.max(1);
    by_columns.min(by_trains).clamp(25, 100)
}
