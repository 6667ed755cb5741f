//! Every command keeps documents and frames consistent.

ghost use Rattle.std.specs.Prelude.{◌≡◌, ℕ, ◌<◌, Option, None, length};
ghost use Rattle.layout_model.specs.Styles.{Declaration};
ghost use Rattle.text_io.specs.declared.kinds.Version.{Version};
ghost use Rattle.layout_model.specs.Items.{Kind};
ghost use Rattle.page_model.specs.World.{Tree, Container};
ghost use Rattle.page_model.specs.Documents.{frame_levels, removed};
ghost use Rattle.page_model.specs.Edits.{with_element, with_frame, with_declaration, with_natural_size};
ghost use Rattle.page_model.specs.Steps.{Did};
ghost use Rattle.page_model.specs.Commands.{placing};
ghost use Rattle.page_model.specs.Outcome.{opening_world};
ghost use Rattle.page_documents.specs.Frames.{AreFramed};
ghost use Rattle.page_documents.specs.Places.{IsThere};

/// In the initial tree of a script, which has only `top`, documents and frames are consistent.
pub fn the_opening_tree_is_framed()
    ensures { (version : Version) → AreFramed (opening_world version).tree }
{}

/// Removing an element keeps documents and frames consistent.
pub fn removing_keeps_frames()
    ensures { (tree : Tree) (n : ℕ) → AreFramed tree → AreFramed (removed tree n) }
{}

/// So does inserting an element into an element or a document, if that neither throws nor exceeds the limit on depth.
pub fn placing_keeps_frames()
    ensures { (tree after : Tree) (container : Container) (n : ℕ) (sibling : Option ℕ) → AreFramed tree → IsThere tree container → n < length tree.elements →
        placing container n sibling tree ≡ Did after → AreFramed after }
{}

/// So does creating an element other than a frame, in any document.
pub fn making_elements_keeps_frames()
    ensures { (tree : Tree) (kind : Kind) (document : ℕ) → AreFramed tree → AreFramed (with_element kind document None tree) }
{}

/// So does creating a frame with its document, if there are fewer documents than the number of frames that the definitions
/// follow in a row.
pub fn making_frames_keeps_frames()
    ensures { (tree : Tree) (document : ℕ) → AreFramed tree → length tree.documents < frame_levels → AreFramed (with_frame document tree) }
{}

/// So does any change of a style or a natural size.
pub fn styles_keep_frames()
    ensures declarations { (tree : Tree) (declaration : Declaration) (n : ℕ) → AreFramed tree → AreFramed (with_declaration declaration n tree) }
    ensures natural_sizes { (tree : Tree) (width height n : ℕ) → AreFramed tree → AreFramed (with_natural_size width height n tree) }
{}
