ghost use Rattle.std.specs.Prelude.{◌≡◌, ◌↔◌, IfOk, IfErr, IfSome, IsTrue};
ghost use Rattle.span_flatten.specs.Version.{spans_of};
ghost use Rattle.version_pieces.specs.Alike.{AreAlike};
ghost use Rattle.version_history.specs.Before.{KnowsBefore};
ghost use Rattle.version_pieces.specs.Links.{HaveLinks};

use boxcar::Pushed;
use change_ops::size::Size;
use filters::filter::Filter;
use std::marker::{Brand, Model, PhantomData};
use std::sync::Wait;
use version_pieces::alike::Alike;
use version_pieces::links::keep_links;
use version_pieces::version::{NextVersion, PieceVersion};

/// Which two lists a hub publishes in, and how much its document may hold. A program picks them once for each hub.
pub trait Naming {
    ghost use Rattle.boxcar.specs.Table.{Shelves};
    ghost use Rattle.change_ops.specs.declared.size.Size.{Size};

    ghost size: { Size };

    ghost versions: { Shelves };

    ghost programs: { Shelves };
}

impl Naming for Brand {
    ghost use Rattle.std.specs.Prelude.{[]};
    ghost use Rattle.change_ops.specs.declared.size.Size.TheVariants.{Small};

    ghost size = { Small };

    ghost versions = { record { tag = []; buckets = [] } };

    ghost programs = { record { tag = []; buckets = [] } };
}

/// Where the version before another is, and how many of its spans stand in the other as they stood.
struct Before {
    at: Pushed<PieceVersion>,
    alike: Alike,
}

impl Drop for Before {
    fn drop(self) {
        let Before { at: _, alike: _ } = self;
    }
}

impl Before {
    /// A copy.
    fn again(&self) -> Before
        ensures { result ≡ self.now }
    {
        Before {
            at: self.at.again(),
            alike: self.alike,
        }
    }
}

/// Shows that a version is in the list of the hub `N`, at its index, for good. It may know what stands in it as it
/// stood in the version before it.
pub struct VersionToken<N: Naming> {
    at: Pushed<PieceVersion>,
    before: Option<Before>,
    of: PhantomData<N>,
}

impl<N: Naming> Drop for VersionToken<N> {
    fn drop(self) {
        let VersionToken {
            at: _,
            before: _,
            of: _,
        } = self;
    }
}

impl<N: Naming> Model for VersionToken<N> {
    ghost use Rattle.std.specs.Prelude.{IfSome};
    ghost use Rattle.boxcar.specs.Table.{Shows};
    ghost use Rattle.version_history.specs.Tokens.{Token};
    ghost use Rattle.version_history.specs.Before.{KnowsBefore};
    ghost use Rattle.version_pieces.specs.Links.{HaveLinks};
    ghost use Rattle.span_flatten.specs.Version.{Version, spans_of};

    ghost Value = { Token Version };

    ghost view = { λ t. record { index = t.at.index; value = t.at.value } };

    ghost invariant = { λ t. Shows N.versions t.at × HaveLinks (spans_of t.at.value)
        × IfSome t.before (λ b. KnowsBefore N.versions b.at b.alike t.at.value) };
}

impl<N: Naming> VersionToken<N> {
    /// The law that the links of the version's spans are links.
    pub fn keeps_links(&self)
        ensures { HaveLinks (spans_of self.now.value) }
    {
        let _at = &self.at;
    }

    /// A copy.
    pub fn again(&self) -> VersionToken<N>
        ensures { result ≡ self.now }
    {
        VersionToken {
            at: self.at.again(),
            before: self.before.as_ref().map(|before| before.again()),
            of: PhantomData,
        }
    }
}

/// Shows that a program, of which every run ends with a number, is in the list of the hub `N`, at its index, for
/// good.
pub struct ProgramToken<N: Naming> {
    at: Pushed<Filter>,
    of: PhantomData<N>,
}

impl<N: Naming> Drop for ProgramToken<N> {
    fn drop(self) {
        let ProgramToken { at: _, of: _ } = self;
    }
}

impl<N: Naming> Model for ProgramToken<N> {
    ghost use Rattle.boxcar.specs.Table.{Shows};
    ghost use Rattle.version_history.specs.Tokens.{Token};
    ghost use Rattle.filters.specs.Filters.{IsFilter};
    ghost use Rattle.semantics.specs.Step.{Program};

    ghost Value = { Token Program };

    ghost view = { λ t. record { index = t.at.index; value = t.at.value } };

    ghost invariant = { λ t. Shows N.programs t.at × IsFilter t.at.value };
}

impl<N: Naming> ProgramToken<N> {
    ghost use Rattle.filters.specs.Filters.{IsFilter};

    /// The law that every run of the program ends with a number.
    pub fn every_run_ends(&self)
        ensures { IsFilter self.now.value }
    {
        let _at = &self.at;
    }

    /// A copy.
    pub fn again(&self) -> ProgramToken<N>
        ensures { result ≡ self.now }
    {
        ProgramToken {
            at: self.at.again(),
            of: PhantomData,
        }
    }
}

/// The two lists of the hub `N`, which any thread reads and pushes to, and its size.
#[derive(Drop)]
pub struct Published<'p, N: Naming> {
    size: Size,
    versions: &'p boxcar::Vec<PieceVersion>,
    programs: &'p boxcar::Vec<Filter>,
    of: PhantomData<N>,
    ghost named: { (size ≡ N.size) × (versions.now ≡ N.versions) × (programs.now ≡ N.programs) },
}

impl<'p, N: Naming> Published<'p, N> {
    /// Works on these two lists, which are those of `N`, at its size.
    pub fn new(
        size: Size,
        versions: &'p boxcar::Vec<PieceVersion>,
        programs: &'p boxcar::Vec<Filter>,
    ) -> Published<'p, N>
        requires { (size ≡ N.size) × (versions.now ≡ N.versions) × (programs.now ≡ N.programs) }
    {
        Published {
            size,
            versions,
            programs,
            of: PhantomData,
        }
    }

    /// How much the hub's document may hold.
    pub fn size(&self) -> Size
        ensures { result ≡ N.size }
    {
        self.size
    }

    /// A copy.
    pub fn again(&self) -> Published<'p, N> {
        Published {
            size: self.size,
            versions: self.versions,
            programs: self.programs,
            of: PhantomData,
        }
    }

    /// Puts a version into the list, with what its token is to know of the one before it.
    fn put<R: Wait>(
        &self,
        rt: &R,
        version: PieceVersion,
        before: Option<Before>,
    ) -> Result<VersionToken<N>, PieceVersion>
        requires links { HaveLinks (spans_of version) }
        requires before { IfSome before (λ b. KnowsBefore N.versions b.at b.alike version) }
        ensures ok { IfOk result (λ t. t.value ≡ version) }
        ensures err { IfErr result (λ v. v ≡ version) }
    {
        let at = self.versions.push_shown(rt, version)?;
        Ok(VersionToken {
            at,
            before,
            of: PhantomData,
        })
    }

    /// Publishes a version. It comes back where there is no memory.
    pub fn publish<R: Wait>(
        &self,
        rt: &R,
        version: PieceVersion,
    ) -> Result<VersionToken<N>, PieceVersion>
        ensures ok { IfOk result (λ t. t.value ≡ version) }
        ensures err { IfErr result (λ v. v ≡ version) }
    {
        keep_links(&version, 0, version.span_count());
        self.put(rt, version, None)
    }

    /// Publishes the version after another, with what stands in both. It comes back where there is no memory. Only
    /// spans that may have changed are gone over for their links.
    pub fn publish_next<R: Wait>(
        &self,
        rt: &R,
        before: &VersionToken<N>,
        next: NextVersion,
    ) -> Result<VersionToken<N>, PieceVersion>
        requires alike { AreAlike (spans_of before.now.value) (spans_of next.version)
            next.alike.front next.alike.behind }
        ensures ok { IfOk result (λ t. t.value ≡ next.version) }
        ensures err { IfErr result (λ v. v ≡ next.version) }
    {
        let (version, alike) = next.into_parts();
        keep_links(&version, alike.front, version.span_count() - alike.behind);
        let before = Before {
            at: before.at.again(),
            alike,
        };
        self.put(rt, version, Some(before))
    }

    /// How many spans stand in the newer version as they stood in the older one, where the newer one's token knows it
    /// of that one.
    pub fn alike(&self, older: &VersionToken<N>, newer: &VersionToken<N>) -> Option<Alike>
        ensures { IfSome result (λ alike. AreAlike (spans_of older.now.value) (spans_of newer.now.value)
            alike.front alike.behind) }
    {
        let before = newer.before.as_ref()?;
        if before.at.index() != older.at.index() {
            return None;
        }
        self.versions.agrees(&before.at, &older.at);
        Some(before.alike)
    }

    /// The version of a token.
    pub fn look(&self, token: &VersionToken<N>) -> &PieceVersion
        ensures { result.now ≡ token.now.value }
    {
        self.versions.value(&token.at)
    }

    /// Whether two tokens have one index, and so one version.
    pub fn is_same(&self, a: &VersionToken<N>, b: &VersionToken<N>) -> bool
        ensures { IsTrue result ↔ (a.now ≡ b.now) }
    {
        if a.at.index() == b.at.index() {
            self.versions.agrees(&a.at, &b.at);
            true
        } else {
            false
        }
    }

    /// Publishes a program. It comes back where there is no memory.
    pub fn publish_program<R: Wait>(
        &self,
        rt: &R,
        program: Filter,
    ) -> Result<ProgramToken<N>, Filter>
        ensures ok { IfOk result (λ t. t.value ≡ program) }
        ensures err { IfErr result (λ p. p ≡ program) }
    {
        // For the clause that every run of the program ends.
        program.every_run_ends();
        let at = self.programs.push_shown(rt, program)?;
        Ok(ProgramToken {
            at,
            of: PhantomData,
        })
    }

    /// The program of a token.
    pub fn program(&self, token: &ProgramToken<N>) -> &Filter
        ensures { result.now ≡ token.now.value }
    {
        self.programs.value(&token.at)
    }

    /// Whether two tokens have one index, and so one program.
    pub fn is_same_program(&self, token: &ProgramToken<N>, other: &ProgramToken<N>) -> bool
        ensures { IsTrue result ↔ (token.now ≡ other.now) }
    {
        if token.at.index() == other.at.index() {
            self.programs.agrees(&token.at, &other.at);
            true
        } else {
            false
        }
    }
}
