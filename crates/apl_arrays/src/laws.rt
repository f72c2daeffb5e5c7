// Laws of the definitions of views.
ghost use Rattle.std.specs.Prelude.{◌≡◌, ℕ, ◌+◌, ◌-◌, ◌<◌, ◌≤◌, List, length, map, slice_index_or, true};
ghost use Rattle.apl_arrays.specs.Index.{is_within};
ghost use Rattle.apl_arrays.specs.Cells.{Arr, IsArray, cell_at};
ghost use Rattle.apl_arrays.specs.Views.{selected, on_axis, length_of, reversed, cut, turned, ShowsBy};

/// The law that a view's element at an index list is the array's at the one that the view makes of it.
pub fn views_by_index_list()
    ensures selected { (a : Arr) (s : List ℕ) (g : List ℕ → List ℕ) (i : List ℕ) → IsArray a.shape a.items
        → is_within s i ≡ true → is_within a.shape (g i) ≡ true → cell_at (selected a s g) i ≡ cell_at a (g i) }
    ensures reversed { (a : Arr) (axis : ℕ) → IsArray a.shape a.items
        → ShowsBy (reversed axis a) a (on_axis axis (λ k. length_of a axis - 1 - k)) }
    ensures cut { (a : Arr) (axis from len : ℕ) → IsArray a.shape a.items → axis < length a.shape → from + len ≤ length_of a axis
        → ShowsBy (cut axis from len a) a (on_axis axis (λ k. k + from)) }
    ensures turned { (a : Arr) (axes : List ℕ) → IsArray a.shape a.items → length axes ≡ length a.shape
        → ShowsBy (turned axes a) a (λ i. map (λ m. slice_index_or i m 0) axes) }
{}
