ghost use Rattle.std.specs.Prelude.{◌≡◌, true, ◌&&◌, IsTrue};
ghost use Rattle.messages.specs.Marks.{goes_out};

use rules::row::Action;
use rules::rule::Rule;
use rules::tag::Tag;

// A rule to be held under a tag. Its out port, if it has one, may be marked strip: packets leave there untagged.
#[derive(Clone, Copy, PartialEq, Eq)]
pub struct Add {
    tag: Tag,
    rule: Rule,
    // A mark of its own and no sign that another field counts, so it is no `Option`.
    strip: bool,
    ghost marked: { (IsTrue strip → goes_out rule.row.action ≡ true) },
}

impl Add {
    // A drop has no out port to mark, so its mark is left off.
    pub fn new(tag: Tag, rule: Rule, strip: bool) -> Add
        ensures { (result.tag ≡ tag) × (result.rule ≡ rule) × (result.strip ≡ (goes_out rule.row.action && strip)) }
    {
        let out = matches!(rule.row().action, Action::Out(_));
        Add {
            tag,
            rule,
            strip: out && strip,
        }
    }

    pub fn tag(self) -> Tag
        ensures { result ≡ self.tag }
    {
        self.tag
    }

    pub fn rule(self) -> Rule
        ensures { result ≡ self.rule }
    {
        self.rule
    }

    pub fn strip(self) -> bool
        ensures { result ≡ self.strip }
    {
        self.strip
    }
}
