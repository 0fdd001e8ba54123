//! The names of the directives that decide checks (Content Security Policy Level 3, section 6).
ghost use Rattle.std.specs.Prelude.{◌≡◌};
ghost use Rattle.csp_model.specs.Governing as governing;
ghost use Rattle.csp_model.specs.Names as spec;

/// A directive's name that a check can ask for, or that can govern it. They are declared in the order of
/// their texts.
#[derive(Clone, Copy, Debug, PartialEq, Eq)]
pub enum Name {
    BaseUri,
    ChildSrc,
    ConnectSrc,
    DefaultSrc,
    FontSrc,
    FormAction,
    FrameAncestors,
    FrameSrc,
    ImgSrc,
    ManifestSrc,
    MediaSrc,
    ObjectSrc,
    Sandbox,
    ScriptSrc,
    ScriptSrcAttr,
    ScriptSrcElem,
    StyleSrc,
    StyleSrcAttr,
    StyleSrcElem,
    WorkerSrc,
}

impl Name {
    /// All names, in the order of their texts, which is that of their declaration.
    pub const ALL: [Name; 20] = [
        Name::BaseUri,
        Name::ChildSrc,
        Name::ConnectSrc,
        Name::DefaultSrc,
        Name::FontSrc,
        Name::FormAction,
        Name::FrameAncestors,
        Name::FrameSrc,
        Name::ImgSrc,
        Name::ManifestSrc,
        Name::MediaSrc,
        Name::ObjectSrc,
        Name::Sandbox,
        Name::ScriptSrc,
        Name::ScriptSrcAttr,
        Name::ScriptSrcElem,
        Name::StyleSrc,
        Name::StyleSrcAttr,
        Name::StyleSrcElem,
        Name::WorkerSrc,
    ];

    /// The names that may govern a check that asks for this one, the first one that the policy has before the
    /// others (Content Security Policy Level 3, section 6.8.3).
    pub fn fallbacks(self) -> &'static [Name]
        ensures { result.now ≡ governing.fallbacks self }
    {
        match self {
            Name::BaseUri => &[Name::BaseUri],
            Name::ChildSrc => &[Name::ChildSrc, Name::DefaultSrc],
            Name::ConnectSrc => &[Name::ConnectSrc, Name::DefaultSrc],
            Name::DefaultSrc => &[Name::DefaultSrc],
            Name::FontSrc => &[Name::FontSrc, Name::DefaultSrc],
            Name::FormAction => &[Name::FormAction],
            Name::FrameAncestors => &[Name::FrameAncestors],
            Name::FrameSrc => &[Name::FrameSrc, Name::ChildSrc, Name::DefaultSrc],
            Name::ImgSrc => &[Name::ImgSrc, Name::DefaultSrc],
            Name::ManifestSrc => &[Name::ManifestSrc, Name::DefaultSrc],
            Name::MediaSrc => &[Name::MediaSrc, Name::DefaultSrc],
            Name::ObjectSrc => &[Name::ObjectSrc, Name::DefaultSrc],
            Name::Sandbox => &[Name::Sandbox],
            Name::ScriptSrc => &[Name::ScriptSrc, Name::DefaultSrc],
            Name::ScriptSrcAttr => &[Name::ScriptSrcAttr, Name::ScriptSrc, Name::DefaultSrc],
            Name::ScriptSrcElem => &[Name::ScriptSrcElem, Name::ScriptSrc, Name::DefaultSrc],
            Name::StyleSrc => &[Name::StyleSrc, Name::DefaultSrc],
            Name::StyleSrcAttr => &[Name::StyleSrcAttr, Name::StyleSrc, Name::DefaultSrc],
            Name::StyleSrcElem => &[Name::StyleSrcElem, Name::StyleSrc, Name::DefaultSrc],
            Name::WorkerSrc => &[
                Name::WorkerSrc,
                Name::ChildSrc,
                Name::ScriptSrc,
                Name::DefaultSrc,
            ],
        }
    }
}

/// The name as it is written, in lower case.
pub fn name_text(name: Name) -> &'static str
    ensures { result.now ≡ spec.name_text name }
{
    match name {
        Name::BaseUri => "base-uri",
        Name::ChildSrc => "child-src",
        Name::ConnectSrc => "connect-src",
        Name::DefaultSrc => "default-src",
        Name::FontSrc => "font-src",
        Name::FormAction => "form-action",
        Name::FrameAncestors => "frame-ancestors",
        Name::FrameSrc => "frame-src",
        Name::ImgSrc => "img-src",
        Name::ManifestSrc => "manifest-src",
        Name::MediaSrc => "media-src",
        Name::ObjectSrc => "object-src",
        Name::Sandbox => "sandbox",
        Name::ScriptSrc => "script-src",
        Name::ScriptSrcAttr => "script-src-attr",
        Name::ScriptSrcElem => "script-src-elem",
        Name::StyleSrc => "style-src",
        Name::StyleSrcAttr => "style-src-attr",
        Name::StyleSrcElem => "style-src-elem",
        Name::WorkerSrc => "worker-src",
    }
}
