// Definitions and laws that the other crates share: a choice by a test, a walk by steps, a list by steps. No code.
