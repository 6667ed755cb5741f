//! What scenes that agree along a pair's chain have in common, stated as the contracts of empty functions.

ghost use Rattle.std.specs.Prelude.{ℕ, List};
ghost use Rattle.element_tree.specs.declared.container.Container.{Container as ContainerOf};
ghost use Rattle.clip_chain.specs.Scenes.{Scene};
ghost use Rattle.clip_chain.specs.Chains.{Leads};
ghost use Rattle.kept_clips.specs.Clips.{clip_between};
ghost use Rattle.kept_clips.specs.Held.{HeldClips, pair_of, with_clip};
ghost use Rattle.kept_clips.specs.Chains.{IsExact, AgreesAlong};
ghost use Rattle.kept_clips.specs.Scenes.{AgreesAt, DiffersOnlyAt};
ghost use Rattle.kept_clips.specs.declared.sightings.Sighting.{Sighting};
ghost use Rattle.kept_clips.specs.Seen.{Seen as SeenSpots, HasRoom, scene_seen, sighting_in, with_sighting};

/// If a recorded scene has the containers and clips of the current one along a pair's current chain, a clip that is exact for
/// the recorded scene is exact now; and computing that pair's clip keeps all clips that are exact for the recorded scene
/// exact.

pub fn clips_hang_on_their_chains_alone()
    ensures now { (seen now : Scene) (it : HeldClips) (number : ℕ) → AgreesAlong seen now (pair_of it number) → IsExact seen it number → IsExact now it number }
    ensures asked { (seen now : Scene) (it : HeldClips) (number : ℕ) (between : List ContainerOf) → AgreesAlong seen now (pair_of it number) →
        Leads now (pair_of it number).of between (pair_of it number).root → (other : ℕ) →
        IsExact seen it other → IsExact seen (with_clip number (clip_between now between) it) other }
{}

/// Recording a spot changes the recorded scene at that spot only, so that touching the spot keeps clips exact; and there it
/// agrees with the current scene.
pub fn a_spot_is_seen_by_itself()
    ensures differs { (it : SeenSpots) (of : ContainerOf) (sighting : Sighting) → DiffersOnlyAt of (scene_seen it) (scene_seen (with_sighting of sighting it)) }
    ensures agrees { (it : SeenSpots) (of : ContainerOf) (now : Scene) → HasRoom it of → AgreesAt (scene_seen (with_sighting of (sighting_in now of) it)) now of }
{}
