//! Texts of tasks.

/// The gripper moves from room to room, and picks a ball up and drops it with one hand.
pub(crate) const GRIPPER: &str = "(define (domain gripper)
    (:predicates (room ?r) (ball ?b) (here ?r) (in ?b ?r) (free) (held ?b))
    (:action go :parameters (?x ?y)
     :precondition (and (room ?x) (room ?y) (here ?x) (not (= ?x ?y)))
     :effect (and (here ?y) (not (here ?x))))
    (:action pick :parameters (?b ?r)
     :precondition (and (ball ?b) (room ?r) (here ?r) (in ?b ?r) (free))
     :effect (and (held ?b) (not (in ?b ?r)) (not (free))))
    (:action drop :parameters (?b ?r)
     :precondition (and (ball ?b) (room ?r) (here ?r) (held ?b))
     :effect (and (in ?b ?r) (free) (not (held ?b)))))";

/// Objects: the rooms p and q, and the balls x and y.
pub(crate) const TWO_BALLS: &str = "(define (problem p) (:objects p q x y)
    (:init (room p) (room q) (ball x) (ball y) (here p) (in x p) (in y p) (free))
    (:goal (and (in x q) (in y q))))";
