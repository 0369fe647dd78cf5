// The laws of the three formats. A function here does nothing: its clauses are the laws, for any tag, page and slot.

ghost use Rattle.std.specs.Prelude.{◌≡◌, ◌≢◌, ◌≤◌, ◌⊎◌, ℕ, List, length};
ghost use Rattle.page_tags.specs.Headers.{Fields, HasFault, IsBytes, IsFirstFault, IsHeader, IsHeaderOf, header_bytes};
ghost use Rattle.page_tags.specs.Slots.{Entry, IsSlot, slot_bytes};
ghost use Rattle.page_tags.specs.Tags.{IsTag, tag_bytes};
ghost use Rattle.page_tags.specs.declared.header.HeaderFault.{HeaderFault};
ghost use Rattle.page_tags.specs.declared.tag.Tag.{Tag};

/// No two tags have the same bytes.
pub fn tags_differ()
    ensures { (t u : Tag) → IsTag t → IsTag u → tag_bytes t ≡ tag_bytes u → t ≡ u }
{}

/// Any bytes are those of one tag or of none.
pub fn each_tag_is_one_or_none()
    ensures { (bytes : List ℕ) → ((t : Tag) × IsTag t × (bytes ≡ tag_bytes t))
        ⊎ ((t : Tag) → IsTag t → bytes ≢ tag_bytes t) }
{}

/// No two headers have the same bytes.
pub fn headers_differ()
    ensures { (d : ℕ) (f g : Fields) → d ≤ 4096 → IsHeader d f → IsHeader d g
        → header_bytes f ≡ header_bytes g → f ≡ g }
{}

/// A page is a header or has one first fault, and not both.
pub fn each_page_is_a_header_or_has_a_fault()
    ensures one_of_them { (page : List ℕ) → 32 ≤ length page → length page ≤ 4096 → IsBytes page
        → ((f : Fields) × IsHeaderOf page f) ⊎ ((fault : HeaderFault) × IsFirstFault page fault) }
    ensures not_both { (page : List ℕ) → length page ≤ 4096
        → (f : Fields) (fault : HeaderFault) → IsHeaderOf page f → HasFault page fault → ⊥ }
    ensures one_header { (page : List ℕ) → length page ≤ 4096
        → (f g : Fields) → IsHeaderOf page f → IsHeaderOf page g → f ≡ g }
    ensures one_first { (page : List ℕ) (a b : HeaderFault) → IsFirstFault page a → IsFirstFault page b → a ≡ b }
{}

/// No two slots have the same bytes.
pub fn slots_differ()
    ensures { (s t : Entry) → IsSlot s → IsSlot t → slot_bytes s ≡ slot_bytes t → s ≡ t }
{}

/// Any bytes are those of one slot or of none.
pub fn each_slot_is_one_or_none()
    ensures { (bytes : List ℕ) → ((s : Entry) × IsSlot s × (bytes ≡ slot_bytes s))
        ⊎ ((s : Entry) → IsSlot s → bytes ≢ slot_bytes s) }
{}
