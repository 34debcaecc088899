//! The text of a picture.

ghost use Rattle.std.specs.Prelude.{◌≡◌, ◌++◌, IfOk, OnOk, codes};
ghost use Rattle.run_picture.specs.Svg.{style_word, area_text, title_text, rect_text, words_text, mark_text, layer_text, layers_text, view_text, open_text, head_text, svg_of};

use crate::marks::{Area, Drawing, Mark, Style};
use crate::writer::Writer;
use pool_law::Bytes;
use std::alloc::{AllocError, Global};

/// How all marks of each style look. The colours are of the palette of Okabe and Ito, which the
/// colour-blind can tell apart; what waits in a cache is hatched besides.
pub const LOOKS: &str = "<style>
text{font-family:DejaVu Sans,Verdana,sans-serif;font-size:110px;fill:#222}
rect{shape-rendering:crispEdges}
.page{fill:#fff}
.absent{fill:#f4f4f4;stroke:#ccc;stroke-width:4;stroke-dasharray:30 30}
.open{fill:#fff;stroke:#999;stroke-width:6}
.subpage{fill:#e4e4e4;stroke:#999;stroke-width:5}
.hand{fill:#56b4e9}
.root{fill:#0072b2}
.cache{fill:url(#wait)}
.block{fill:#000;fill-opacity:0;stroke:#fff;stroke-width:5}
.block:hover{stroke:#000;stroke-width:14}
.alloc,.access,.count,.send,.name,.refused,.closing{stroke:#fff;stroke-width:10}
.alloc{fill:#0072b2}
.access{fill:#009e73}
.count{fill:#cc79a7}
.send{fill:#f0e442}
.name{fill:#bbb}
.refused{fill:#d55e00}
.closing{fill:#e4e4e4}
.busy{fill:#000}
.life{fill:#cfe3f2}
.writes{fill:#d55e00}
.reads{fill:#009e73}
.line{fill:#000}
.axis{fill:#555}
.grid{fill:#d8d8d8}
.heading{font-size:190px;font-weight:bold}
.label{font-size:130px;font-weight:bold;text-anchor:end}
.small{font-size:100px;fill:#444}
.number{font-size:95px;fill:#444;text-anchor:end}
.middle{font-size:95px;fill:#444;text-anchor:middle}
.within{font-size:95px;fill:#fff;pointer-events:none}
.faint{font-size:95px;fill:#999;pointer-events:none}
.warning{font-size:120px;font-weight:bold;fill:#d55e00}
</style>
<defs><pattern id='wait' width='60' height='60' patternUnits='userSpaceOnUse'>\
<rect width='60' height='60' fill='#e69f00'/><path d='M0 60L60 0' stroke='#fff' stroke-width='10'/></pattern></defs>
";

// The class of a style.
fn style_word(style: Style) -> &'static str
    ensures { result.now ≡ style_word style }
{
    match style {
        Style::Block => "block",
        Style::InHand => "hand",
        Style::Rooted => "root",
        Style::Cached => "cache",
        Style::Subpage => "subpage",
        Style::Open => "open",
        Style::Absent => "absent",
        Style::Allocates => "alloc",
        Style::Accesses => "access",
        Style::Counts => "count",
        Style::HandsOver => "send",
        Style::Names => "name",
        Style::Refused => "refused",
        Style::Closing => "closing",
        Style::Busy => "busy",
        Style::Life => "life",
        Style::Writes => "writes",
        Style::Reads => "reads",
        Style::Count => "line",
        Style::Axis => "axis",
        Style::Grid => "grid",
        Style::Heading => "heading",
        Style::Label => "label",
        Style::Small => "small",
        Style::Number => "number",
        Style::Middle => "middle",
        Style::Within => "within",
        Style::Faint => "faint",
        Style::Warning => "warning",
    }
}

impl Writer {
    // Appends the beginning of an element of a style.
    fn begin(&mut self, element: &str, style: Style) -> Result<(), AllocError>
        ensures { OnOk result (self.new
            ≡ self.old ++ (element.now ++ style_word style ++ codes "'")) }
    {
        self.words(element)?;
        self.words(style_word(style))?;
        self.words("'")
    }

    // Appends where a rectangle lies.
    fn area(&mut self, area: &Area) -> Result<(), AllocError>
        ensures { OnOk result (self.new ≡ self.old ++ area_text area.now) }
    {
        self.attribute("x", area.x)?;
        self.attribute("y", area.y)?;
        self.attribute("width", area.width)?;
        self.attribute("height", area.height)
    }

    // Appends the end of a rectangle, with its title.
    fn title(&mut self, title: &[u8]) -> Result<(), AllocError>
        ensures { OnOk result (self.new ≡ self.old ++ title_text title.now) }
    {
        self.words("><title>")?;
        self.escaped(title)?;
        self.words("</title></rect>\n")
    }

    // Appends a rectangle.
    fn rect(&mut self, style: Style, area: &Area, title: &[u8]) -> Result<(), AllocError>
        ensures { OnOk result (self.new ≡ self.old ++ rect_text style area.now title.now) }
    {
        self.begin("<rect class='", style)?;
        self.area(area)?;
        self.title(title)
    }

    // Appends words at a point.
    fn words_at(&mut self, style: Style, x: u32, y: u32, words: &[u8]) -> Result<(), AllocError>
        ensures { OnOk result (self.new ≡ self.old ++ words_text style x y words.now) }
    {
        self.begin("<text class='", style)?;
        self.attribute("x", x)?;
        self.attribute("y", y)?;
        self.words(">")?;
        self.escaped(words)?;
        self.words("</text>\n")
    }

    // Appends a mark.
    fn mark(&mut self, mark: &Mark) -> Result<(), AllocError>
        ensures { OnOk result (self.new ≡ self.old ++ mark_text mark.now) }
    {
        match mark {
            Mark::Rect { style, area, title } => self.rect(*style, area, title.items()),
            Mark::Words { style, x, y, words } => self.words_at(*style, *x, *y, words.items()),
        }
    }

    // Appends marks, one after another.
    fn layer(&mut self, marks: &[Mark]) -> Result<(), AllocError>
        ensures { OnOk result (self.new ≡ self.old ++ layer_text marks.now) }
    {
        for mark in marks {
            self.mark(mark)?;
        }
        Ok(())
    }

    // Appends the part of a picture that is shown: all of this size.
    fn view_box(&mut self, width: u32, height: u32) -> Result<(), AllocError>
        ensures { OnOk result (self.new ≡ self.old ++ view_text width height) }
    {
        self.named(" viewBox='0 0 ", width as u64)?;
        self.named(" ", height as u64)?;
        self.words("'>\n")
    }

    // Appends the beginning of a picture of this size.
    fn open(&mut self, width: u32, height: u32) -> Result<(), AllocError>
        ensures { OnOk result (self.new ≡ self.old ++ open_text width height) }
    {
        self.words("<svg xmlns='http://www.w3.org/2000/svg'")?;
        self.attribute("width", width / 10)?;
        self.attribute("height", height / 10)?;
        self.view_box(width, height)
    }

    // Appends what stands before the layers of a picture of this size.
    fn head(&mut self, width: u32, height: u32) -> Result<(), AllocError>
        ensures { OnOk result (self.new ≡ self.old ++ head_text width height) }
    {
        self.open(width, height)?;
        self.words(LOOKS)?;
        self.words("<rect class='page' width='100%' height='100%'/>\n")
    }

    // Appends layers, the lowest first.
    fn layers(&mut self, drawing: &Drawing) -> Result<(), AllocError>
        ensures { OnOk result (self.new ≡ self.old ++ layers_text drawing.now) }
    {
        self.layer(drawing.grid.items())?;
        self.layer(drawing.ground.items())?;
        self.layer(drawing.blocks.items())?;
        self.layer(drawing.frame.items())
    }
}

/// The text of a picture: its head, and its layers with their marks one after another.
pub fn svg_of(alloc: Global, drawing: &Drawing) -> Result<Bytes, AllocError>
    ensures { IfOk result (λ text. text ≡ svg_of drawing.now) }
{
    let mut text = Writer::new(alloc);
    text.head(drawing.width, drawing.height)?;
    text.layers(drawing)?;
    text.words("</svg>\n")?;
    Ok(text.into_bytes())
}
