//! A drawing while it is made.

use crate::escaping::add_escaped;
use crate::shapes::{Anchor, Place, Point, Size};
use std::alloc::{AllocError, Global};
use std::fmt::Write;

/// The rules of CSS for the classes of a drawing. They have neither `&` nor `<`.
#[derive(Clone, Copy)]
pub struct Style {
    /// Those for each screen.
    pub all: &'static str,
    /// Those that go before them on a dark one.
    pub dark: &'static str,
}

/// What all drawings have: the colours of the ground and of texts, with classes `title` for the
/// largest, and `note` and `meaning` for what explains.
const GROUND: Style = Style {
    all: "svg{background:#fff;font:12px sans-serif}.ground{fill:#fff}text{fill:#1f2328}\
        .title{font-size:16px;font-weight:bold}.note,.meaning{fill:#59636e}",
    dark: "svg{background:#0d1117}.ground{fill:#0d1117}text{fill:#e6edf3}\
        .note,.meaning{fill:#9198a1}",
};

/// A drawing while it is made: each call adds to what is there, later things above earlier ones.
/// After an error what was made is of no use. Whatever is called, the elements that were begun are
/// ended.
#[derive(Drop)]
pub struct Drawing {
    text: String,
    groups: usize,
}

impl Drawing {
    /// A drawing of that size with nothing in it. Browsers and screen readers tell its title.
    ///
    /// # Errors
    ///
    /// There is no memory for it.
    pub fn new(
        alloc: Global,
        size: Size,
        title: &str,
        style: Style,
    ) -> Result<Drawing, AllocError> {
        let mut text = String::new(alloc);
        let Size { width, height } = size;
        write!(
            text,
            "<svg xmlns=\"http://www.w3.org/2000/svg\" width=\"{width}\" height=\"{height}\" \
            viewBox=\"0 0 {width} {height}\" role=\"img\">\n"
        )?;
        add_title(&mut text, title)?;
        add_style(&mut text, style)?;
        text.push_str("\n<rect class=\"ground\" width=\"100%\" height=\"100%\"/>\n")?;
        Ok(Drawing { text, groups: 0 })
    }

    /// Begins a group of that class, which goes on to the next end of a group. If its title is not
    /// empty, it is told of what is in the group and has none of its own.
    ///
    /// # Errors
    ///
    /// There is no memory for it.
    pub fn begin_group(&mut self, class: &str, title: &str) -> Result<(), AllocError> {
        self.begin("g", class)?;
        self.text.push('>')?;
        add_title(&mut self.text, title)?;
        self.text.push('\n')?;
        self.groups = self.groups.saturating_add(1);
        Ok(())
    }

    /// Ends the group that was begun last, if one is not ended yet.
    ///
    /// # Errors
    ///
    /// There is no memory for it.
    pub fn end_group(&mut self) -> Result<(), AllocError> {
        if self.groups > 0 {
            self.groups -= 1;
            self.text.push_str("</g>\n")?;
        }
        Ok(())
    }

    /// A rectangle of that class, with that title if it is not empty.
    ///
    /// # Errors
    ///
    /// There is no memory for it.
    pub fn rect(&mut self, class: &str, place: Place, title: &str) -> Result<(), AllocError> {
        self.begin("rect", class)?;
        let Place {
            x,
            y,
            width,
            height,
        } = place;
        write!(
            self.text,
            " x=\"{x}\" y=\"{y}\" width=\"{width}\" height=\"{height}\""
        )?;
        self.end("rect", title)
    }

    /// A circle of that class, with that title if it is not empty.
    ///
    /// # Errors
    ///
    /// There is no memory for it.
    pub fn circle(
        &mut self,
        class: &str,
        centre: Point,
        radius: u32,
        title: &str,
    ) -> Result<(), AllocError> {
        self.begin("circle", class)?;
        let Point { x, y } = centre;
        write!(self.text, " cx=\"{x}\" cy=\"{y}\" r=\"{radius}\"")?;
        self.end("circle", title)
    }

    /// A line of that class, with that title if it is not empty.
    ///
    /// # Errors
    ///
    /// There is no memory for it.
    pub fn line(
        &mut self,
        class: &str,
        from: Point,
        to: Point,
        title: &str,
    ) -> Result<(), AllocError> {
        self.begin("line", class)?;
        let Point { x, y } = from;
        write!(self.text, " x1=\"{x}\" y1=\"{y}\"")?;
        let Point { x, y } = to;
        write!(self.text, " x2=\"{x}\" y2=\"{y}\"")?;
        self.end("line", title)
    }

    /// A line of that class from point to point.
    ///
    /// # Errors
    ///
    /// There is no memory for it.
    pub fn path(&mut self, class: &str, points: &[Point], title: &str) -> Result<(), AllocError> {
        self.begin("polyline", class)?;
        self.text.push_str(" points=\"")?;
        for point in points {
            let Point { x, y } = *point;
            write!(self.text, "{x},{y} ")?;
        }
        self.text.push('"')?;
        self.end("polyline", title)
    }

    /// A text of that class.
    ///
    /// # Errors
    ///
    /// There is no memory for it.
    pub fn text(
        &mut self,
        class: &str,
        at: Point,
        anchor: Anchor,
        text: &str,
    ) -> Result<(), AllocError> {
        self.begin("text", class)?;
        let Point { x, y } = at;
        let anchor = anchor.word();
        write!(self.text, " x=\"{x}\" y=\"{y}\" text-anchor=\"{anchor}\">")?;
        add_escaped(&mut self.text, text)?;
        self.text.push_str("</text>\n")
    }

    /// The allocator that it takes its memory from.
    pub fn allocator(&self) -> Global {
        *self.text.allocator()
    }

    /// The whole drawing, with the groups ended that are not.
    ///
    /// # Errors
    ///
    /// There is no memory for it.
    pub fn finish(self) -> Result<String, AllocError> {
        let Drawing { text, groups } = self;
        let mut text = text;
        for _ in 0..groups {
            text.push_str("</g>\n")?;
        }
        text.push_str("</svg>\n")?;
        Ok(text)
    }

    // Begins the tag of an element of that class.
    fn begin(&mut self, name: &str, class: &str) -> Result<(), AllocError> {
        self.text.push('<')?;
        self.text.push_str(name)?;
        self.text.push_str(" class=\"")?;
        add_escaped(&mut self.text, class)?;
        self.text.push('"')
    }

    // Ends that tag, and the element: with its title, if that is not empty.
    fn end(&mut self, name: &str, title: &str) -> Result<(), AllocError> {
        if title.is_empty() {
            return self.text.push_str("/>\n");
        }
        self.text.push('>')?;
        add_title(&mut self.text, title)?;
        write!(self.text, "</{name}>\n")
    }
}

// Adds the title of an element, if it is not empty.
fn add_title(text: &mut String, title: &str) -> Result<(), AllocError> {
    if title.is_empty() {
        return Ok(());
    }
    text.push_str("<title>")?;
    add_escaped(text, title)?;
    text.push_str("</title>")
}

// Adds the rules of all drawings, and those of this one.
fn add_style(text: &mut String, style: Style) -> Result<(), AllocError> {
    let Style { all, dark } = style;
    text.push_str("<style>")?;
    text.push_str(GROUND.all)?;
    text.push_str(all)?;
    text.push_str("@media(prefers-color-scheme:dark){")?;
    text.push_str(GROUND.dark)?;
    text.push_str(dark)?;
    text.push_str("}</style>")
}
