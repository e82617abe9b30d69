//! Laws of the definitions. Each function does nothing: its contract is the law.
ghost use Rattle.std.specs.Prelude.{◌≡◌, ◌≤◌};
ghost use Rattle.doc_tree.specs.Doc.{Doc, height};
ghost use Rattle.doc_tree.specs.Read.{read_of, document};
ghost use Rattle.doc_tree.specs.Sound.{IsSound};
ghost use Rattle.doc_tree.specs.Text.{text_of};

/// The text of a sound document at most 127 high is read as that document.
pub fn text_reads_back()
    ensures { (d : Doc) → IsSound d → height d ≤ 127 → read_of (text_of d) ≡ document d }
{}

/// Two sound documents at most 127 high never share a text.
pub fn texts_differ()
    ghost pair: { Doc × Doc }
    requires sound { IsSound pair.0 × IsSound pair.1 }
    requires shallow { (height pair.0 ≤ 127) × (height pair.1 ≤ 127) }
    ensures { text_of pair.0 ≡ text_of pair.1 → pair.0 ≡ pair.1 }
{}
