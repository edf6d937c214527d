//! What a case says of its span beside the text.
ghost use Rattle.std.specs.Prelude.{◌≡◌, ◌≤◌, if◌then◌else◌, length, unwrap_or};
ghost use Rattle.filter_cases.specs.Marks.{plain, flags_of, link_of, facts_of};

use change_ops::attribute::Link;
use span_context::context::Facts;

/// A span's marks, and its place in a version.
#[derive(Drop)]
pub struct Marks {
    pub strong: bool,
    pub em: bool,
    pub code: bool,
    pub link: Option<Link>,
    /// 65,536 times red, 256 times green, and blue.
    pub color: Option<u32>,
    /// How many.
    pub comments: u32,
    /// From 0.
    pub index: u32,
    /// How many spans the version has.
    pub count: u32,
    pub version: u64,
}

/// A flag of a context, where it holds.
fn flag(holds: bool, bit: u32) -> u32
    ensures { result ≡ (if holds then bit else 0) }
{
    if holds { bit } else { 0 }
}

impl Marks {
    /// Those of a span of which nothing is said: the only one of its version.
    pub fn plain() -> Marks
        ensures { result ≡ plain }
    {
        Marks {
            strong: false,
            em: false,
            code: false,
            link: None,
            color: None,
            comments: 0,
            index: 0,
            count: 1,
            version: 0,
        }
    }

    /// The flags of the span's context.
    fn flags(&self) -> u32
        ensures { result ≡ flags_of self.now }
    {
        let strong = flag(self.strong, 1);
        let em = flag(self.em, 2);
        let link = flag(self.link.is_some(), 4);
        let color = flag(self.color.is_some(), 8);
        let comments = flag(self.comments != 0, 16);
        let code = flag(self.code, 32);
        strong + em + link + color + comments + code
    }

    /// The color's number, 0 where there is none.
    fn color(&self) -> u32
        ensures { result ≡ unwrap_or self.now.color 0 }
    {
        self.color.unwrap_or(0)
    }

    /// The text of the link, none where there is no link.
    pub fn link(&self) -> &[u8]
        ensures value { result.now ≡ link_of self.now }
        ensures short { length result.now ≤ 1024 }
    {
        match &self.link {
            Some(link) => link.target().as_bytes(),
            None => &[],
        }
    }

    /// What a program may learn of the span whose text it is.
    pub fn facts(&self, text: &str) -> Facts
        requires { length text.now ≤ 131072 }
        ensures value { result ≡ facts_of self.now text.now }
        ensures link_short { result.link_len ≤ 1024 }
    {
        Facts {
            text_len: text.len() as u32,
            characters: text.chars().count() as u32,
            flags: self.flags(),
            color: self.color(),
            link_len: self.link().len() as u32,
            comments: self.comments,
            index: self.index,
            count: self.count,
            version: self.version,
        }
    }
}
