//! The glyphs of a picture. The text of a picture calls each by a letter.

use page::Glyph;

/// A unit brakes.
pub const BRAKED: Glyph = Glyph {
    name: "b",
    outline: "M-48,-75H48L0,10z",
    look: "fill=\"#d55e00\" stroke=\"#fff\" stroke-width=\"8\"",
};

/// A train passes a mark beside the track.
pub const MARKED: Glyph = Glyph {
    name: "m",
    outline: "M0,-65L65,0L0,65L-65,0z",
    look: "fill=\"#fff\" stroke=\"#222\" stroke-width=\"16\"",
};

/// A unit's report is sent.
pub const REPORT: Glyph = Glyph {
    name: "r",
    outline: "M-36,-36H36V36H-36z",
    look: "fill=\"#222\"",
};

/// A controller's words on a train are sent.
pub const WORDS: Glyph = Glyph {
    name: "w",
    outline: "M-36,-36H36V36H-36z",
    look: "fill=\"#fff\" stroke=\"#222\" stroke-width=\"14\"",
};

/// A grant is sent.
pub const GRANT: Glyph = Glyph {
    name: "g",
    outline: "M-42,-42H42V42H-42z",
    look: "fill=\"#9a8f00\" stroke=\"#fff\" stroke-width=\"6\"",
};

/// A controller hears a message.
pub const HEARD: Glyph = Glyph {
    name: "h",
    outline: "M-46,0a46,46 0 1 0 92,0a46,46 0 1 0 -92,0z",
    look: "fill=\"#fff\" stroke=\"#222\" stroke-width=\"16\"",
};

/// A train takes a message.
pub const TAKEN: Glyph = Glyph {
    name: "t",
    outline: "M0,-70L62,45H-62z",
    look: "fill=\"#6b6300\" stroke=\"#fff\" stroke-width=\"8\"",
};

/// A controller restarts.
pub const RESTART: Glyph = Glyph {
    name: "s",
    outline: "M-50,-50L50,50M-50,50L50,-50",
    look: "stroke=\"#222\" stroke-width=\"22\"",
};

/// All of them.
pub const GLYPHS: [Glyph; 8] = [BRAKED, MARKED, REPORT, WORDS, GRANT, HEARD, TAKEN, RESTART];
