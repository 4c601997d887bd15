//! What conflicts, and what orders it: the facts that a reader expects.
ghost use Rattle.std.specs.Prelude.{◌≡◌, ◌≢◌, ℕ, ◌/◌, true, false};
ghost use Rattle.pl_event.specs.declared.event.Event.{Event};
ghost use Rattle.pl_event.specs.Alerts.{is_alert_kind};
ghost use Rattle.pl_event.specs.Conflicts.{is_access};
ghost use Rattle.pl_event.specs.Edges.{no_arcs};
ghost use Rattle.pl_event.specs.ShortLogs.{AllOrdered, AreApart, IsLoad, IsStore, NeedsArc};
ghost use Rattle.pl_event.specs.ShortLogs.{arc_from, told_of_first, told_of_second, two};

/// Two accesses of different harts to one block need an arc where one of them is a store, and none where both are loads
/// or the blocks differ. An alert event and an access need a notice of the alert event in the access's hart, and of two
/// alert events the later one's hart needs the notice of the earlier one; an arc does not serve. No other events
/// conflict.
pub fn conflicts()
    ensures load_store { (size x y : ℕ) (a b : Event) → AreApart a b →
        IsLoad a x → IsStore b y → x / size ≡ y / size → NeedsArc size a b }
    ensures store_load { (size x y : ℕ) (a b : Event) → AreApart a b →
        IsStore a x → IsLoad b y → x / size ≡ y / size → NeedsArc size a b }
    ensures stores { (size x y : ℕ) (a b : Event) → AreApart a b →
        IsStore a x → IsStore b y → x / size ≡ y / size → NeedsArc size a b }
    ensures loads { (size x y : ℕ) (a b : Event) → AreApart a b →
        IsLoad a x → IsLoad b y → AllOrdered size (two a b no_arcs) }
    ensures blocks { (size x y : ℕ) (a b : Event) → AreApart a b →
        IsStore a x → IsStore b y → (x / size ≢ y / size) → AllOrdered size (two a b no_arcs) }
    ensures alert_access { (size : ℕ) (a b : Event) → AreApart a b →
        is_alert_kind a.kind ≡ true → is_access b.kind ≡ true →
        (AllOrdered size (two a b (arc_from a.hart)) → ⊥) × AllOrdered size (told_of_first a b) }
    ensures access_alert { (size : ℕ) (a b : Event) → AreApart a b →
        is_access a.kind ≡ true → is_alert_kind b.kind ≡ true →
        (AllOrdered size (two a b (arc_from a.hart)) → ⊥) × AllOrdered size (told_of_second a b) }
    ensures alerts { (size : ℕ) (a b : Event) → AreApart a b →
        is_alert_kind a.kind ≡ true → is_alert_kind b.kind ≡ true →
        (AllOrdered size (told_of_second a b) → ⊥) × AllOrdered size (told_of_first a b) }
    ensures others { (size : ℕ) (a b : Event) → AreApart a b →
        is_access a.kind ≡ false → is_alert_kind a.kind ≡ false →
        AllOrdered size (two a b no_arcs) × AllOrdered size (two b a no_arcs) }
{}
