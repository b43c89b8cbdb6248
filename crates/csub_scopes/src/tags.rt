//! The declarations of tags.
ghost use Rattle.std.specs.Prelude.{◌≡◌, ◌∷◌, [], OnOk, OnErr, option_map};
ghost use Rattle.csub_objects.specs.Types.{members_of};
ghost use Rattle.csub_scopes.specs.Scopes.{find_tag};
ghost use Rattle.csub_scopes.specs.Meanings.{tagged_of};

use crate::meaning::Tagged;
use crate::places::{place_of, put_next};
use csub_objects::Members;
use csub_text::Text;
use indexmap::IndexMap;
use std::alloc::{AllocError, Global};
use std::marker::Model;

/// The declared tags. Contracts see their list, the latest first.
pub struct Tags {
    alloc: Global,
    stack: Vec<Tagged>,
    latest: IndexMap<Vec<u8>, Option<u32>>,
}

impl Drop for Tags {
    fn drop(self) {
        let Tags {
            alloc: _,
            stack: _,
            latest: _,
        } = self;
    }
}

impl Model for Tags {
    ghost use Rattle.std.specs.Prelude.{List};
    ghost use Rattle.csub_scopes.specs.Scopes as scopes;
    ghost use Rattle.csub_scopes.specs.Codes.{tags_code};

    ghost Value = { List scopes.Tagged };

    ghost coded = { tags_code };

    ghost use Rattle.std.specs.Prelude.{map, reverse};
    ghost use Rattle.csub_scopes.specs.Meanings.{tagged_of};
    ghost use Rattle.csub_scopes.specs.Places.{ArePlaces};

    ghost view = { λ tags. map tagged_of (reverse tags.stack.items) };

    ghost invariant = { λ tags. ArePlaces tags.latest (map (λ tagged. tagged.tag) (reverse tags.stack.items)) };
}

impl Tags {
    /// No tag.
    pub fn new(alloc: Global) -> Tags
        ensures { result ≡ [] }
    {
        Tags {
            alloc,
            stack: Vec::new(alloc),
            latest: IndexMap::new(alloc),
        }
    }

    /// The latest declaration of a tag.
    pub fn find(&self, tag: &[u8]) -> Option<&Tagged>
        ensures { option_map (λ tagged. tagged_of tagged.now) result ≡ find_tag tag.now self.now }
    {
        let place = place_of(&self.latest, tag)?;
        Some(&self.stack[place as usize])
    }

    /// Declares a tag, of a struct with its members, of an enumeration without. An `Err` is want of memory, or
    /// 4,294,967,295 tags that stand already, and nothing is declared then.
    pub fn declare(&mut self, tag: &Text, members: Option<Members>) -> Result<(), AllocError>
        ensures ok { OnOk result (self.new ≡ record { tag = tag.now; members = option_map members_of members } ∷ self.old) }
        ensures err { OnErr result (self.new ≡ self.old) }
    {
        self.stack.reserve(1)?;
        let count = self.stack.len();
        let (tag, _) = put_next(self.alloc, &mut self.latest, tag, count)?;
        self.stack.push(Tagged { tag, members })?;
        Ok(())
    }
}
