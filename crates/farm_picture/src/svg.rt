//! An SVG: lines, marks and words at places. It has a style of its own, no script, and asks for nothing
//! outside it.

use crate::escape::escaped;
use std::alloc::{AllocError, Global};

/// A place, in units of the picture from its left and upper edges.
#[derive(Clone, Copy)]
pub struct Point {
    pub x: usize,
    pub y: usize,
}

impl Point {
    pub fn new(x: usize, y: usize) -> Self {
        Point { x, y }
    }
}

/// What is drawn decides how it looks: these are the classes of the style.
#[derive(Clone, Copy)]
pub enum Class {
    Request,
    Answer,
    Refusal,
    /// The line of a node.
    Life,
    Connection,
    Cut,
    Restart,
    Lost,
    Money,
    Note,
    Name,
}

impl Class {
    fn name(self) -> &'static str {
        match self {
            Class::Request => "request",
            Class::Answer => "answer",
            Class::Refusal => "refusal",
            Class::Life => "life",
            Class::Connection => "connection",
            Class::Cut => "cut",
            Class::Restart => "restart",
            Class::Lost => "lost",
            Class::Money => "money",
            Class::Note => "note",
            Class::Name => "name",
        }
    }
}

/// How a text stands to its place.
#[derive(Clone, Copy)]
pub enum Anchor {
    Start,
    Middle,
    End,
}

impl Anchor {
    fn attribute(self) -> &'static str {
        match self {
            Anchor::Start => "",
            Anchor::Middle => " text-anchor=\"middle\"",
            Anchor::End => " text-anchor=\"end\"",
        }
    }
}

const STYLE: &str = "<style>
path,circle{fill:none;stroke-width:1.4}
text{font:11px \"DejaVu Sans Mono\",Menlo,Consolas,monospace;paint-order:stroke;stroke:#fff;stroke-width:3px;stroke-linejoin:round}
.request{stroke:#1b4f91}text.request{fill:#1b4f91;stroke:#fff}
.answer{stroke:#17692f}text.answer{fill:#17692f;stroke:#fff}
.refusal{stroke:#a3262a}text.refusal{fill:#a3262a;stroke:#fff}
.life{stroke:#9a9a9a;stroke-width:1}
.connection{stroke:#6a6a6a;stroke-width:1}
.cut{stroke:#a3262a;stroke-width:5}text.cut{fill:#a3262a;stroke:#fff;stroke-width:3px}
.restart{stroke:#a3262a}circle.restart{fill:#a3262a}text.restart{fill:#a3262a;stroke:#fff;font-weight:bold}
.lost{stroke:#a3262a;stroke-width:2.4}
.money{stroke:#7d4e00}circle.money{fill:#7d4e00}text.money{fill:#7d4e00;stroke:#fff;font-weight:bold}
.note{stroke:#555}text.note{fill:#555;stroke:#fff}
.name{stroke:#222}text.name{fill:#222;stroke:#fff;font-weight:bold}
.air{stroke-dasharray:5 4}
</style>
";

/// An SVG that is being written.
#[derive(Drop)]
pub struct Svg {
    alloc: Global,
    text: String,
}

impl Svg {
    /// A white page of this size, which scales with the place that it is shown in.
    pub fn new(alloc: Global, width: usize, height: usize) -> Result<Self, AllocError> {
        let mut text = String::new(alloc);
        writeln!(
            text,
            "<svg xmlns=\"http://www.w3.org/2000/svg\" viewBox=\"0 0 {width} {height}\">"
        )?;
        text.push_str(STYLE)?;
        writeln!(
            text,
            "<rect width=\"{width}\" height=\"{height}\" fill=\"#fff\"/>"
        )?;
        Ok(Svg { alloc, text })
    }

    /// The text of the SVG.
    pub fn finish(self) -> Result<String, AllocError> {
        let Svg { mut text, .. } = self;
        text.push_str("</svg>\n")?;
        Ok(text)
    }

    /// A line through these places.
    pub fn line(&mut self, class: Class, points: &[Point]) -> Result<(), AllocError> {
        self.path(class, "", points)
    }

    /// A dashed line through these places.
    pub fn dashes(&mut self, class: Class, points: &[Point]) -> Result<(), AllocError> {
        self.path(class, " air", points)
    }

    /// A line with these classes beside its own.
    fn path(&mut self, class: Class, more: &str, points: &[Point]) -> Result<(), AllocError> {
        let name = class.name();
        write!(self.text, "<path class=\"{name}{more}\" d=\"")?;
        let mut step = 'M';
        for point in points {
            let x = point.x;
            let y = point.y;
            write!(self.text, "{step}{x} {y}")?;
            step = 'L';
        }
        self.text.push_str("\"/>\n")
    }

    /// The head of an arrow whose tip is here.
    pub fn head(&mut self, class: Class, tip: Point, rightwards: bool) -> Result<(), AllocError> {
        let name = class.name();
        let x = tip.x;
        let y = tip.y;
        let back = if rightwards {
            "m-7 -4l7 4l-7 4"
        } else {
            "m7 -4l-7 4l7 4"
        };
        writeln!(self.text, "<path class=\"{name}\" d=\"M{x} {y}{back}\"/>")
    }

    /// A cross.
    pub fn cross(&mut self, class: Class, at: Point) -> Result<(), AllocError> {
        let name = class.name();
        let x = at.x;
        let y = at.y;
        writeln!(
            self.text,
            "<path class=\"{name}\" d=\"M{x} {y}m-5 -5l10 10m0 -10l-10 10\"/>"
        )
    }

    /// A circle of this radius.
    pub fn circle(&mut self, class: Class, at: Point, radius: usize) -> Result<(), AllocError> {
        let name = class.name();
        let x = at.x;
        let y = at.y;
        writeln!(
            self.text,
            "<circle class=\"{name}\" cx=\"{x}\" cy=\"{y}\" r=\"{radius}\"/>"
        )
    }

    /// Words on a line at this height, whatever characters are among them.
    pub fn words(
        &mut self,
        class: Class,
        anchor: Anchor,
        at: Point,
        words: &[u8],
    ) -> Result<(), AllocError> {
        let name = class.name();
        let x = at.x;
        let y = at.y;
        let side = anchor.attribute();
        let text = escaped(self.alloc, words)?;
        writeln!(
            self.text,
            "<text class=\"{name}\" x=\"{x}\" y=\"{y}\"{side}>{text}</text>"
        )
    }
}
