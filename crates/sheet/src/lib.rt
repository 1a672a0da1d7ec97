// No code: the starred lines of document 01's sheet stand in one table of specs/, under one statement.
#![tactic(auto)]
