//! How the parts of a promise stand to what it says, and what their questions name: laws, contracts of calls that compute nothing.

ghost use Rattle.std.specs.Prelude.{◌≡◌, ℕ, true, length, Some, slice_get, take};
ghost use Rattle.std.specs.List.{flat_map};
ghost use Rattle.lf_promises.specs.declared.promise.Promise.{Promise};
ghost use Rattle.lf_promises.specs.Facts.{names_facts};
ghost use Rattle.lf_rules.specs.declared.definition.Definition.{Definition};
ghost use Rattle.lf_rules.specs.declared.topic.Topic.{Topic};
ghost use Rattle.lf_parts.specs.declared.leaf.Leaf.{Leaf};
ghost use Rattle.lf_parts.specs.declared.leaf.Leaf.TheVariants as kinds;
ghost use Rattle.lf_parts.specs.declared.part.Part.TheVariants as parts;
ghost use Rattle.lf_parts.specs.Leaves.{leaves};
ghost use Rattle.lf_parts.specs.Parts.{part_of, parts_of, topics_of};
ghost use Rattle.lf_parts.specs.Questions.{asked};

/// A promise has as many parts as leaves. The part with a place is what the leaf with this place says, and the topics of the leaves before it are counted.
pub fn parts_are_leaves()
    ensures many { (p : Promise) → length (parts_of p) ≡ length (leaves p) }
    ensures each { (p : Promise) (place : ℕ) (leaf : Leaf) → slice_get (leaves p) place ≡ Some leaf →
        slice_get (parts_of p) place ≡ Some (part_of (length (flat_map topics_of (take place (leaves p)))) leaf) }
{}

/// Of a part that asks for one value, the number is that of its topic among the topics of the promise, from the left.
pub fn topics_are_numbered()
    ensures { (p : Promise) (place number : ℕ) (topic : Topic) → slice_get (leaves p) place ≡ Some (kinds.One topic) →
        slice_get (parts_of p) place ≡ Some (parts.One number) → slice_get (flat_map topics_of (leaves p)) number ≡ Some topic }
{}

/// Where a promise names only facts of a definition, so does each promise that asks of its parts.
pub fn questions_name_facts()
    ensures { (d : Definition) (p q : Promise) (place : ℕ) → names_facts d p ≡ true → asked p place ≡ Some q → names_facts d q ≡ true }
{}
