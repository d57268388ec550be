//! Laws of the boot order, and of what a search by a holder that is alone finds: all of it is counted from
//! what is left, so a layer above can tell from the machine alone whether all guests get their frames.
ghost use Rattle.std.specs.Prelude.{◌≡◌, ℕ, ◌+◌, ◌*◌, ◌<◌, ◌≤◌, ◌==◌, true, List, IsPermutation, count_by};
ghost use Rattle.node_frames.specs.Layout.{Layout};
ghost use Rattle.base_words.specs.declared.ids.NodeId.{NodeId};
ghost use Rattle.frame_words.specs.FrameRights.{first_view};
ghost use Rattle.frame_words.specs.Holders.{MadeTable};
ghost use Rattle.frame_words.specs.declared.view.View.{View};
ghost use Rattle.frame_words.specs.declared.terms.Terms.{Terms};
ghost use Rattle.node_frames.specs.Places.{IsOn, FitsShape, AreNodes};
ghost use Rattle.node_frames.specs.BootOrder.{nodes_below, boot_nodes, cell_nodes};
ghost use Rattle.node_frames.specs.Left.{Left, left_of, first_left, cell_frames, has, after_search, after_searches};
ghost use Rattle.node_frames.specs.Alone.{FindsNext, FindsNoMore, IsLowest, Gains};
ghost use Rattle.node_frames.specs.Searches.{Finds, FindsNone};
ghost use Rattle.node_frames.specs.declared.answers.Shown.{Shown};

use frame_words::holds_and_looks_add_up;

/// The frames of a node follow one another, and those of the layout's nodes are the table's.
pub fn a_nodes_frames_are_a_range()
    ensures on { (layout : Layout) (node k : ℕ) → k < layout.frames → IsOn layout node (node * layout.frames + k) }
    ensures place { (layout : Layout) (node frame : ℕ) → 0 < layout.frames → IsOn layout node frame
        → (k : ℕ) × (k < layout.frames) × (frame ≡ node * layout.frames + k) }
    ensures within { (table : MadeTable) (layout : Layout) (node frame : ℕ) → FitsShape table layout → node < layout.nodes
        → IsOn layout node frame → frame < table.terms.frames }
{}

/// The boot order has the nodes of the layout, each once.
pub fn boot_order_has_each_node()
    ensures nodes { (layout : Layout) (home : NodeId) → home.0 < layout.nodes → AreNodes layout (boot_nodes layout home) }
    ensures permutes { (layout : Layout) (home : NodeId) → home.0 < layout.nodes
        → IsPermutation (nodes_below layout.nodes) (boot_nodes layout home) }
    ensures once { (layout : Layout) (home : NodeId) (n : ℕ) → home.0 < layout.nodes → n < layout.nodes
        → count_by (λ (m : NodeId). m.0 == n) (boot_nodes layout home) ≡ 1 }
{}

/// A holder that is alone gets a frame of the first node of the order that gives one, and none where none does.
pub fn alone_finds_next()
    ensures next { (table : MadeTable) (layout : Layout) (home : ℕ) (order : List NodeId) (number generation : ℕ) (v w : View)
        → FitsShape table layout → AreNodes layout order → v.alone ≡ true
        → Finds layout table.terms.lends home order number generation v w
        → FindsNext layout table.terms.lends home order number v w }
    ensures none { (layout : Layout) (lends : List ℕ) (home : ℕ) (order : List NodeId) (list : List Shown) (v w : View)
        → v.alone ≡ true → FindsNone layout lends home order list v w → FindsNoMore layout lends home order v w }
{
    holds_and_looks_add_up();
}

/// Of that node it gets the lowest frame that it can take, and gains one hold of it and, outside home, one loan.
pub fn alone_gains_the_lowest()
    ensures lowest { (table : MadeTable) (layout : Layout) (home : ℕ) (order : List NodeId) (number generation : ℕ) (v w : View)
        → FitsShape table layout → AreNodes layout order → v.alone ≡ true
        → Finds layout table.terms.lends home order number generation v w → IsLowest layout number v }
    ensures gains { (table : MadeTable) (layout : Layout) (home : ℕ) (order : List NodeId) (number generation : ℕ) (v w : View)
        → FitsShape table layout → AreNodes layout order → v.alone ≡ true
        → Finds layout table.terms.lends home order number generation v w → Gains layout home number generation v w }
{
    holds_and_looks_add_up();
}

/// A search by a holder that is alone lowers what a guest has by one where it answers a frame. Where the boot order
/// gave none, from whatever home node, the guest has nothing.
pub fn has_counts_the_frames_to_come()
    ensures falls { (table : MadeTable) (layout : Layout) (home : ℕ) (order : List NodeId) (number generation : ℕ) (v w : View)
        → FitsShape table layout → AreNodes layout order → v.alone ≡ true
        → Finds layout table.terms.lends home order number generation v w
        → has layout home (left_of layout table.terms.lends w) + 1 ≡ has layout home (left_of layout table.terms.lends v) }
    ensures nothing { (layout : Layout) (lends : List ℕ) (home : ℕ) (start : NodeId) (list : List Shown) (v w : View)
        → start.0 < layout.nodes → v.alone ≡ true → FindsNone layout lends home (boot_nodes layout start) list v w
        → has layout home (left_of layout lends v) ≡ 0 }
{
    holds_and_looks_add_up();
}

/// To a holder that was just made each frame of each node is left, and all that each cell lends.
pub fn first_holder_has_all()
    ensures { (terms : Terms) (layout : Layout) → terms.first < 4294967295
        → left_of layout terms.lends (first_view terms) ≡ first_left layout terms.lends }
{}

/// What is left for a cell's cache is counted the same way over the cell's own nodes, where the cell is home.
pub fn cell_frames_count_the_cache()
    ensures nodes { (layout : Layout) (cell : ℕ) → AreNodes layout (cell_nodes layout cell) }
    ensures falls { (table : MadeTable) (layout : Layout) (cell number generation : ℕ) (v w : View)
        → FitsShape table layout → v.alone ≡ true
        → Finds layout table.terms.lends cell (cell_nodes layout cell) number generation v w
        → cell_frames layout (left_of layout table.terms.lends w) cell + 1
        ≡ cell_frames layout (left_of layout table.terms.lends v) cell }
    ensures nothing { (layout : Layout) (lends : List ℕ) (cell : ℕ) (list : List Shown) (v w : View) → v.alone ≡ true
        → FindsNone layout lends cell (cell_nodes layout cell) list v w
        → cell_frames layout (left_of layout lends v) cell ≡ 0 }
{
    holds_and_looks_add_up();
}

/// So many searches by the boot order lower what a guest has by as many, up to all that it has; and so do searches
/// over a cell's own nodes with what is left for its cache. One search more is one after so many.
pub fn searches_take_what_is_left()
    ensures more { (layout : Layout) (home : ℕ) (order : List NodeId) (k : ℕ) (left : Left)
        → after_searches layout home order (k + 1) left ≡ after_search layout home order (after_searches layout home order k left) }
    ensures guest { (table : MadeTable) (layout : Layout) (home : ℕ) (start : NodeId) (left : Left) (k : ℕ)
        → FitsShape table layout → start.0 < layout.nodes → k ≤ has layout home left
        → has layout home (after_searches layout home (boot_nodes layout start) k left) + k ≡ has layout home left }
    ensures cache { (layout : Layout) (cell : ℕ) (left : Left) (k : ℕ) → k ≤ cell_frames layout left cell
        → cell_frames layout (after_searches layout cell (cell_nodes layout cell) k left) cell + k ≡ cell_frames layout left cell }
{}
